//! The program: it does what its words ask for, reads a document from standard input,
//! and writes the answer to standard output.
#![tactic(auto)]

use activation::NoGate;
use amoebot_run::run;
use outer_io::{StdSink, StdSource};
use std::process::ExitCode;
use std::{env, io};

/// The status where no memory is left for the list of words.
const NO_MEMORY: u8 = 6;

/// The status where the system refuses the words, as it does where one is not UTF-8.
const NO_WORDS: u8 = 8;

fn main(rt: HostRuntime) -> ExitCode {
    let args = match env::args(&rt) {
        Ok(args) => args,
        Err(error) if error.kind() == io::ErrorKind::OutOfMemory => return ExitCode::from(
            NO_MEMORY,
        ),
        Err(_) => return ExitCode::from(NO_WORDS),
    };
    let mut words = Vec::new(rt.alloc());
    for word in args.skip(1) {
        if words.push(word).is_err() {
            return ExitCode::from(NO_MEMORY);
        }
    }
    let mut input = StdSource::new(rt.stdin());
    let mut out = StdSink::new(rt.stdout());
    let ended = run(
        &rt,
        rt.alloc(),
        words.as_slice(),
        &mut input,
        &mut out,
        &NoGate,
    );
    ExitCode::from(ended.status.number())
}
