//! Programs of the language, from their texts.

use action_check::check;
use action_eval::Runner;
use action_parser::parse_program;
use action_tree::Program;
use std::alloc::Global;
use std::test::Fail;
use text_tokens::Tokens;

/// A contracted amoebot expands.
pub const OUT: &str = "program\naction out when contracted move expand head 0\nend\n";

/// An expanded amoebot contracts.
pub const BACK: &str = "program\nguard off\naction back when expanded move contract tail\nend\n";

/// An amoebot marks itself.
pub const MARK: &str = "program\nvar m 1\naction mark when m = 0 do m := 1\nend\n";

/// An amoebot beside a marked one marks itself.
pub const PASS: &str = "program\nvar m 1\n\
    action pass when m = 0 and any p in ports ( p . m = 1 ) do m := 1\nend\n";

/// An expanded amoebot takes the one behind its tail along, and then makes a note.
pub const DRAG: &str = "program\nvar m 1\n\
    action drag when expanded and linked tail 3 and not peer_expanded tail 3 move pull tail 3\n\
    action note when expanded do m := 1\nend\n";

/// Amoebots push expanded ones, expand, take contracted ones along, and contract.
pub const SHOVE: &str = "program\n\
    action shove when contracted and linked head 0 and peer_expanded head 0 move push head 0\n\
    action out when contracted and free head 0 move expand head 0\n\
    action drag when expanded and linked tail 3 and not peer_expanded tail 3 move pull tail 3\n\
    action back when expanded move contract tail\nend\n";

/// The program of a text, behind which nothing comes.
pub fn program_of(alloc: Global, text: &str) -> Result<Program, Fail> {
    if text.len() > 1_000_000 {
        Err("a long text")?;
    }
    let mut tokens = Tokens::new(text.as_bytes());
    let program = parse_program(alloc, &mut tokens).ok().ok_or("no program")?;
    if tokens.next() != Ok(None) {
        Err("more than a program")?;
    }
    Ok(program)
}

/// The decider of a program's text.
pub fn runner_of(alloc: Global, text: &str) -> Result<Runner, Fail> {
    let program = program_of(alloc, text)?;
    let checked = check(alloc, program).ok().ok_or("a fault")?;
    Ok(Runner::new(checked))
}
