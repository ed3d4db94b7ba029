ghost use Rattle.std.specs.Prelude.{◌≤◌};
ghost use Rattle.amoebot_state.specs.Limits.{most_vars};

use amoebot_state::World;
use shape_text::{print_shape, read_final, read_shape};
use std::alloc::{AllocError, Global};
use std::process::Abort;
use std::test::*;
use text_tokens::RefusalKind::{
    BadByte, BadRange, BadValue, NotAdjacent, OutOfBox, Overlap, TooMany, Trailing, Truncated,
    Unexpected, WordTooLong,
};
use text_tokens::{Lines, ReadRefusal, Refusal, RefusalKind, Text, Tokens};
use tri_lattice::Node;

/// More bytes than a text of these tests has.
const MOST_BYTES: usize = 4_000_000;

/// One variable of at most 3.
const UP_TO_3: [u8; 8] = [3, 0, 0, 0, 0, 0, 0, 0];

/// The world of a whole text of a shape.
fn read_text(alloc: Global, text: &[u8], vars: u8, maxes: [u8; 8]) -> Result<World, ReadRefusal>
    requires { vars ≤ most_vars }
{
    if text.len() > MOST_BYTES {
        return Err(ReadRefusal::NoMemory);
    }
    let mut tokens = Tokens::new(text);
    let world = read_shape(alloc, &mut tokens, 1, vars, maxes)?;
    tokens.end(Trailing)?;
    Ok(world)
}

/// The world of a whole text of a last shape of one variable.
fn read_last(alloc: Global, text: &[u8]) -> Result<World, ReadRefusal> {
    if text.len() > MOST_BYTES {
        return Err(ReadRefusal::NoMemory);
    }
    let mut tokens = Tokens::new(text);
    let world = read_final(alloc, &mut tokens, 1, 1, UP_TO_3)?;
    tokens.end(Trailing)?;
    Ok(world)
}

fn at(line: u32, kind: RefusalKind) -> Option<ReadRefusal> {
    Some(ReadRefusal::Refused(Refusal { line, kind }))
}

/// Whether a text is read, printed as it was, and read as the same world again.
fn is_kept(alloc: Global, text: &[u8], vars: u8, maxes: [u8; 8]) -> bool
    requires { vars ≤ most_vars }
{
    let Ok(first) = read_text(alloc, text, vars, maxes) else {
        return false;
    };
    let Ok(printed) = print_shape(alloc, "shape", &first, vars) else {
        return false;
    };
    if printed.bytes() != text {
        return false;
    }
    match read_text(alloc, printed.bytes(), vars, maxes) {
        Ok(second) => second.same(&first),
        Err(_) => false,
    }
}

/// A text with the number of its variables and their maxima.
type ShapeText = (&'static str, u8, [u8; 8]);

/// Shapes of runs, one without an amoebot, negative coordinates, and eight variables.
static KEPT: [ShapeText; 11] = [
    ("shape\narea 0 0 8 8\nend\n", 0, [0; 8]),
    ("shape\narea 0 0 8 8\nend\n", 8, [255; 8]),
    ("shape\narea 0 0 8 8\nbot 2 3 2 3 0 +\nend\n", 0, [0; 8]),
    ("shape\narea 0 0 8 8\nbot 2 3 2 3 5 -\nend\n", 0, [0; 8]),
    (
        "shape\narea 0 0 8 8\nbot 2 3 2 3 0 +\nbot 3 3 4 3 0 +\nend\n",
        0,
        [0; 8],
    ),
    (
        "shape\narea 0 0 8 8\nbot 3 3 2 3 0 +\nbot 1 3 1 3 0 +\nend\n",
        0,
        [0; 8],
    ),
    (
        "shape\narea 0 0 8 8\nbot 3 3 2 3 0 + 0\nbot 2 4 2 4 0 + 3\nend\n",
        1,
        UP_TO_3,
    ),
    (
        "shape\narea 0 0 8 8\nbot 4 3 4 3 0 + 1 0\nbot 3 4 3 4 0 + 1 0\nbot 2 4 2 4 0 + 1 0\n\
         bot 2 3 2 3 0 + 1 0\nbot 3 2 3 2 0 + 1 0\nbot 4 2 4 2 0 + 1 0\nend\n",
        2,
        [1, 1, 0, 0, 0, 0, 0, 0],
    ),
    (
        "shape\narea 0 0 8 8\nbot 3 3 3 3 0 + 1 6 0\nbot 4 3 4 3 0 + 4 6 2\nbot 3 4 3 4 0 + 4 6 3\nend\n",
        3,
        [4, 6, 6, 0, 0, 0, 0, 0],
    ),
    (
        "shape\narea -4096 -1 128 2\nbot -4096 -1 -4095 -1 3 -\nbot -3969 0 -3969 -1 4 +\nend\n",
        0,
        [0; 8],
    ),
    (
        "shape\narea 4096 4096 1 1\nbot 4096 4096 4096 4096 0 + 1 2 3 4 5 6 7 255\nend\n",
        8,
        [255; 8],
    ),
];

fn are_kept(rt: &impl Abort, alloc: Global, table: &[ShapeText]) {
    for (text, vars, maxes) in table {
        assert!(rt; *vars <= 8);
        assert!(rt; is_kept(alloc, text.as_bytes(), *vars, *maxes), "{text}");
    }
}

#[test]
fn shapes_of_runs_are_read_and_printed_again(rt: HostRuntime) {
    are_kept(&rt, rt.alloc(), &KEPT);
}

/// Two amoebots, the first one expanded.
fn expect_two(rt: &impl Abort, world: &World) {
    assert!(rt; world.bots() == 2);
    assert!(rt;
        [
            world.occupant(Node { x: 3, y: -1 }),
            world.occupant(Node { x: 2, y: -1 }),
            world.occupant(Node { x: 0, y: 5 }),
            world.occupant(Node { x: 1, y: 5 })
        ] == [Some(0), Some(0), Some(1), None]
    );
}

/// Whether a text is that of a last shape, and stands for the world.
fn is_last(alloc: Global, text: &[u8], world: &World) -> bool {
    match read_last(alloc, text) {
        Ok(last) => last.same(world),
        Err(_) => false,
    }
}

#[test]
fn a_shape_is_read_as_it_is_written(rt: HostRuntime) -> Result<(), Fail> {
    let text = b"shape # of two\narea 0 -2 08 8\nbot 3 - 1 2 -1 5 - 003 bot 0 5 0 5 0 + 0 end";
    let world = read_text(rt.alloc(), text, 1, UP_TO_3)
        .ok()
        .ok_or("not read")?;
    expect_two(&rt, &world);
    let printed = print_shape(rt.alloc(), "final", &world, 1)
        .ok()
        .ok_or("no text")?;
    assert!(rt;
        printed.bytes()
            == b"final\narea 0 -2 8 8\nbot 3 -1 2 -1 5 - 3\nbot 0 5 0 5 0 + 0\nend\n".as_slice()
    );
    assert!(rt; is_last(rt.alloc(), printed.bytes(), &world));
    assert!(rt; read_last(rt.alloc(), text).err() == at(1, Unexpected));
    Ok(())
}

/// A text with its first fault.
type Fault = (&'static str, u32, RefusalKind);

/// The line and kind of the first fault of shapes with one variable of at most 3.
static FAULTS: [Fault; 44] = [
    ("", 1, Truncated),
    ("# shape\n\n", 3, Truncated),
    ("shape", 1, Truncated),
    ("shape\narea 0 0 8\n", 3, Truncated),
    ("shapes", 1, Unexpected),
    ("final area 0 0 8 8 end", 1, Unexpected),
    ("shape\nend", 2, Unexpected),
    ("shape area 0 0 8 8\nend\nend", 3, Trailing),
    ("shape area 0 0 8 8\nend\n!", 3, BadByte),
    (
        "shape area 0 0 8 8\nend\nabcdefghijklmnopqrstuvwxy",
        3,
        WordTooLong,
    ),
    ("shape area -4096\n-4097 8 8 end", 2, BadRange),
    ("shape area 4096\n4097 8 8 end", 2, BadRange),
    ("shape area 0 0\n0 8 end", 2, BadRange),
    ("shape area 0 0\n129 8 end", 2, BadRange),
    ("shape area 0 0 1\n0 end", 2, BadRange),
    ("shape area 0 0 1\n129 end", 2, BadRange),
    (
        "shape area 0 0 128 128\nbot 9999 0 0\n10000 0 + 0 end",
        3,
        BadRange,
    ),
    ("shape area 0 0 8 8\nbot 0 0 0 0\n6 + 0 end", 3, BadRange),
    ("shape area 0 0 8 8\nbot 0 0 0 0 5 +\n256 end", 3, BadRange),
    ("shape area 0 0 8 8\nbot 0 0 0 0 5 =\n0 end", 2, Unexpected),
    (
        "shape area 0 0 8 8\nbot 0 0 0 0 5 +\nbot 1 1 1 1 0 + 0 end",
        3,
        Unexpected,
    ),
    (
        "shape area 0 0 8 8\nbot 0 0 0 0 5 + 0\n0 end",
        3,
        Unexpected,
    ),
    (
        "shape area 0 0 8 8\nbot 0 0 0 0 5 + 0\nprogram",
        3,
        Unexpected,
    ),
    ("shape\narea 0 0 8 8\nbot 9 3 9 3 0 + 0\nend", 3, OutOfBox),
    ("shape\narea 0 0 8 8\nbot 7 3 8 3 0 + 0\nend", 3, OutOfBox),
    ("shape\narea 1 1 7 7\nbot 1 1 0 1 0 + 0\nend", 3, OutOfBox),
    ("shape\narea 1 1 7 7\nbot 1 1 1 0 0 + 0\nend", 3, OutOfBox),
    (
        "shape\narea 0 0 8 8\nbot 9999 3 2 3 0 + 0\nend",
        3,
        OutOfBox,
    ),
    (
        "shape\narea 0 0 8 8\nbot 2 3 4 3 0 + 0\nend",
        3,
        NotAdjacent,
    ),
    (
        "shape\narea 0 0 8 8\nbot 2 3 1 2 0 + 0\nend",
        3,
        NotAdjacent,
    ),
    (
        "shape\narea 0 0 8 8\nbot 2 3 2 3 0 + 0\nbot 2 3 2 3 0 + 0\nend",
        4,
        Overlap,
    ),
    (
        "shape\narea 0 0 8 8\nbot 2 3 2 3 0 + 0\nbot 1 3 2 3 0 + 0\nend",
        4,
        Overlap,
    ),
    (
        "shape\narea 0 0 8 8\nbot 2 3 1 3 0 + 0\nbot 1 3 0 3 0 + 0\nend",
        4,
        Overlap,
    ),
    ("shape\narea 0 0 8 8\nbot 2 3 2 3 0 + 4\nend", 3, BadValue),
    ("shape\narea 0 0 8 8\nbot\n9\n3 2 3 0 + 4\nend", 3, OutOfBox),
    // of one amoebot the first rule, and of two the first amoebot
    ("shape\narea 0 0 8 8\nbot 9 3 2 3 0 + 4\nend", 3, OutOfBox),
    (
        "shape\narea 0 0 8 8\nbot 2 3 2 3 0 + 0\nbot 2 3 4 3 0 + 4\nend",
        4,
        NotAdjacent,
    ),
    (
        "shape\narea 0 0 8 8\nbot 2 3 2 3 0 + 0\nbot 3 3 2 3 0 + 4\nend",
        4,
        Overlap,
    ),
    (
        "shape\narea 0 0 8 8\nbot 2 3 2 3 0 + 4\nbot 2 3 2 3 0 + 0\nend",
        3,
        BadValue,
    ),
    (
        "shape\narea 0 0 8 8\nbot 2 3 4 3 0 + 0\nbot 9 3 9 3 0 + 0\nend",
        3,
        NotAdjacent,
    ),
    // the rules come behind all of the grammar, and before what follows
    (
        "shape\narea 0 0 8 8\nbot 9 3 9 3 0 + 0\nbot 2 3 2 3 6 + 0\nend",
        4,
        BadRange,
    ),
    (
        "shape\narea 0 0 8 8\nbot 9 3 9 3 0 + 0\nlists",
        4,
        Unexpected,
    ),
    (
        "shape\narea 0 0 8 8\nbot 9 3 9 3 0 + 0\nend\nmore",
        3,
        OutOfBox,
    ),
    (
        "shape\narea 0 0 8 8\nbot 9 3 9 3 0 + 0\nend\n,",
        3,
        OutOfBox,
    ),
];

fn are_refused(rt: &impl Abort, alloc: Global, table: &[Fault]) {
    for (text, line, kind) in table {
        let found = read_text(alloc, text.as_bytes(), 1, UP_TO_3).err();
        assert!(rt; found == at(*line, *kind), "{text}");
    }
}

#[test]
fn shapes_are_refused_at_their_first_fault(rt: HostRuntime) {
    are_refused(&rt, rt.alloc(), &FAULTS);
}

#[test]
fn the_first_part_of_a_shape_is_none(rt: HostRuntime) {
    let text = b"shape\narea 0 -1 8 8\nbot 2 3 2 3 0 + 0\nend".as_slice();
    assert!(rt; read_text(rt.alloc(), text, 1, UP_TO_3).is_ok());
    for len in 0..text.len() {
        assert!(rt; read_text(rt.alloc(), &text[..len], 1, UP_TO_3).is_err());
    }
}

/// The text of a shape of so many contracted amoebots, from left to right and row by row.
fn long_text(alloc: Global, bots: u32) -> Result<Text, AllocError> {
    let mut lines = Lines::new(alloc);
    lines.open_section("shape")?;
    lines.begin("area")?;
    for number in [0u32, 0, 128, 33] {
        lines.number(number)?;
    }
    lines.end()?;
    for id in 0..bots {
        lines.begin("bot")?;
        for number in [id % 128, id / 128, id % 128, id / 128, id % 6] {
            lines.number(number)?;
        }
        lines.word("-")?;
        lines.end()?;
    }
    lines.close_section()?;
    Ok(lines.text())
}

#[test]
fn a_shape_has_at_most_4096_amoebots(rt: HostRuntime) -> Result<(), Fail> {
    let full = long_text(rt.alloc(), 4096)?;
    assert!(rt; is_kept(rt.alloc(), full.bytes(), 0, [0; 8]));
    let world = read_text(rt.alloc(), full.bytes(), 0, [0; 8])
        .ok()
        .ok_or("not read")?;
    assert!(rt; world.bots() == 4096);
    let longer = long_text(rt.alloc(), 4097)?;
    assert!(rt; read_text(rt.alloc(), longer.bytes(), 0, [0; 8]).err() == at(4099, TooMany));
    Ok(())
}
