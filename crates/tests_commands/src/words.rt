use amoebot_state::NoMemory;
use commands::{Command, DocumentCommand, command_of};
use shipped_programs::Shipped;
use std::alloc::Global;
use std::test::Fail;

/// The command of the words of a line, each of which has a bar before it.
fn judged(alloc: Global, line: &str) -> Result<Option<Command>, NoMemory> {
    let mut words = Vec::new(alloc);
    let mut texts = line.split('|');
    texts.next();
    for text in texts {
        words.push(String::from_str(alloc, text)?)?;
    }
    command_of(alloc, words.as_slice())
}

#[test]
fn each_command_has_its_words(rt: HostRuntime) -> Result<(), Fail> {
    let commands: [(&str, Command); 20] = [
        ("|run", Command::Document(DocumentCommand::Run)),
        (
            "|interleave",
            Command::Document(DocumentCommand::Interleave),
        ),
        ("|replay", Command::Document(DocumentCommand::Replay)),
        ("|check", Command::Document(DocumentCommand::Check)),
        ("|measure", Command::Document(DocumentCommand::Measure)),
        ("|renew", Command::Document(DocumentCommand::Renew)),
        ("|rounds", Command::Document(DocumentCommand::Rounds)),
        ("|elect", Command::Document(DocumentCommand::Elect)),
        ("|tickets", Command::Document(DocumentCommand::Tickets)),
        ("|rewind|0", Command::Document(DocumentCommand::Rewind(0))),
        ("|rewind|17", Command::Document(DocumentCommand::Rewind(17))),
        (
            "|rewind|0000000001",
            Command::Document(DocumentCommand::Rewind(1)),
        ),
        (
            "|rewind|4294967295",
            Command::Document(DocumentCommand::Rewind(4_294_967_295)),
        ),
        ("|show|hexagon", Command::Show(Shipped::Hexagon)),
        ("|show|erosion", Command::Show(Shipped::Erosion)),
        ("|show|line", Command::Show(Shipped::Line)),
        ("|sample|0", Command::Sample(0)),
        ("|sample|17", Command::Sample(17)),
        ("|sample|0000000008", Command::Sample(8)),
        ("|sample|4294967295", Command::Sample(4_294_967_295)),
    ];
    for (line, command) in commands {
        assert!(rt; judged(rt.alloc(), line)? == Some(command));
    }
    Ok(())
}

/// No command has the words of these lines. Each word has a bar before it.
static NONE: &str = "\n\
    |\n\
    ||run\n\
    |run|\n\
    |run|now\n\
    |run|--\n\
    |help|run\n\
    |Run\n\
    |RUN\n\
    |runs\n\
    |ru\n\
    | run\n\
    |run \n\
    |-run\n\
    |--help\n\
    |-h\n\
    |help\n\
    |-\n\
    |--\n\
    |--|run\n\
    |interleave|run\n\
    |replay|replay\n\
    |check|-\n\
    |measure|1\n\
    |renew|x\n\
    |Renew\n\
    |renew|-1\n\
    |rounds|1\n\
    |Rounds\n\
    |round\n\
    |elect|line\n\
    |Elect\n\
    |election\n\
    |tickets|1\n\
    |tickets|run\n\
    |Tickets\n\
    |ticket\n\
    |rewind\n\
    |rewind|\n\
    |rewind|-1\n\
    |rewind|+1\n\
    |rewind|1 \n\
    |rewind|4294967296\n\
    |rewind|00000000001\n\
    |rewind|0|0\n\
    |Rewind|0\n\
    |rewind|NUMBER\n\
    |show\n\
    |show|Hexagon\n\
    |show|hexagons\n\
    |show|\n\
    |show|line|line\n\
    |show|-line\n\
    |show|--|line\n\
    |show|line|--help\n\
    |show|help\n\
    |show|NAME\n\
    |line\n\
    |sample\n\
    |sample|\n\
    |sample|-1\n\
    |sample|+1\n\
    |sample|1 \n\
    |sample|0x1\n\
    |sample|4294967296\n\
    |sample|9999999999\n\
    |sample|00000000001\n\
    |sample|1|1\n\
    |1\n";

#[test]
fn other_words_are_no_command(rt: HostRuntime) -> Result<(), Fail> {
    for line in NONE.lines() {
        assert!(rt; judged(rt.alloc(), line)? == None);
    }
    Ok(())
}
