use action_parser::parse_program;
use action_print::print_program;
use action_tree::Program;
use shipped_programs::{shipped_program, shipped_text};
use std::alloc::Global;
use std::process::Abort;
use text_tokens::{Text, Tokens};

static NAMES: [&str; 3] = ["hexagon", "erosion", "line"];

static OTHERS: [&str; 7] = [
    "", "Hexagon", "hexagon ", "hexagons", "erode", "lin", "sample",
];

/// The program of a text, behind which nothing comes.
fn read(rt: &impl Abort, alloc: Global, text: &[u8]) -> Program {
    assert!(rt; text.len() < 1_000_000);
    let mut tokens = Tokens::new(text);
    let Ok(program) = parse_program(alloc, &mut tokens) else {
        panic!(rt; "no program");
    };
    assert!(rt; tokens.next() == Ok(None));
    program
}

/// The canonical text, which tells a program but for its lines.
fn printed(rt: &impl Abort, alloc: Global, program: &Program) -> Text {
    let Ok(text) = print_program(alloc, program) else {
        panic!(rt; "no memory");
    };
    text
}

#[test]
fn the_trees_are_those_of_the_texts(rt: HostRuntime) {
    let alloc = rt.alloc();
    for name in &NAMES {
        let Some(text) = shipped_text(name) else {
            panic!(rt; "no text of {name}");
        };
        let Ok(Some(shipped)) = shipped_program(alloc, name) else {
            panic!(rt; "no program {name}");
        };
        let read = read(&rt, alloc, text.as_bytes());
        let shipped = printed(&rt, alloc, shipped.program());
        let parsed = printed(&rt, alloc, &read);
        assert!(rt; shipped.bytes() == parsed.bytes(), "{name}");
    }
}

#[test]
fn no_other_name_is_shipped(rt: HostRuntime) {
    for name in &OTHERS {
        assert!(rt; shipped_text(name).is_none(), "{name}");
        assert!(rt;
            matches!(shipped_program(rt.alloc(), name), Ok(None)),
            "{name}"
        );
    }
}
