//! Which programs are `erosion`: the shipped one, however it is written,
//! and no program that differs from it in one place.

use crate::round_programs::program_of;
use election_law::is_erosion;
use shipped_programs::{EROSION, HEXAGON, LINE, shipped_program};
use std::alloc::Global;
use std::test::Fail;

/// What is changed in the text of `erosion`, each time that it stands there,
/// and what comes in its place.
type Change = (&'static str, &'static str);

/// Changes that leave the tree as it is, apart from lines and guard.
static SAME: [Change; 9] = [
    ("guard off", "guard on"),
    ("guard off\n", ""),
    ("program\n", "program\n\n\n"),
    (" ", "\n"),
    ("do leader := 1", "do leader := 1\nmove none"),
    ("do cand := 0", "do cand := 0\nmove none"),
    ("when cand = 1 and leader", "when ( cand = 1 ) and leader"),
    (
        "not any p in ports ( p . cand = 1 )",
        "not ( any p in ports ( ( p . cand = 1 ) ) )",
    ),
    ("var cand 1", "var cand 01"),
];

/// Changes that make another tree.
static OTHER: [Change; 36] = [
    ("var cand 1", "var cand 2"),
    ("var leader 1", "var leader 2"),
    ("var cand 1\nvar leader 1", "var leader 1\nvar cand 1"),
    ("var leader 1", "var leader 1\nvar more 1"),
    ("cand", "kand"),
    ("leader", "lead_er"),
    ("action lead", "action leads"),
    ("action erode", "action wear"),
    ("end\n", "action more\nwhen false\nend\n"),
    ("action lead", "action more\nwhen false\naction lead"),
    ("when cand = 1 and leader", "when cand = 0 and leader"),
    ("leader = 0", "leader = 1"),
    ("leader = 0", "leader != 0"),
    ("leader = 0 and ", ""),
    ("cand = 1 and leader = 0", "leader = 0 and cand = 1"),
    ("and not any", "or not any"),
    ("not any p", "any p"),
    ("not any p", "not all p"),
    (
        "any p in ports ( p . cand = 1 )",
        "any q in ports ( q . cand = 1 )",
    ),
    ("any p in ports", "any p in free"),
    ("any p in ports ( p . cand", "any p in ports ( p . leader"),
    ("when cand = 1 and count", "when leader = 1 and count"),
    ("count p in ports", "count p in free"),
    ("turn p 1", "turn p 2"),
    ("linked turn p 1", "linked turn p 2"),
    ("turn p 1 . cand", "turn p 2 . cand"),
    ("linked turn p 1", "linked turn turn p 1 1"),
    ("linked turn p 1", "at_head turn p 1"),
    (
        "linked turn p 1 and turn p 1 . cand = 1",
        "turn p 1 . cand = 1",
    ),
    (") ) = 1", ") ) <= 1"),
    (") ) = 1", ") ) = 2"),
    (") ) = 1", ") ) = 1 + 0"),
    ("do cand := 0", "do cand := - 0"),
    ("do cand := 0", "do leader := 0"),
    ("do leader := 1", "do leader := 1 ; cand := 1"),
    ("do cand := 0", "do cand := 0\nmove contract tail"),
];

/// `erosion` with its actions exchanged.
const EXCHANGED: &str = "\
program
guard off
var cand 1
var leader 1
action erode
when cand = 1 and count p in ports ( p . cand = 1
 and not ( linked turn p 1 and turn p 1 . cand = 1 ) ) = 1
do cand := 0
action lead
when cand = 1 and leader = 0 and not any p in ports ( p . cand = 1 )
do leader := 1
end
";

/// Whether the text of `erosion` is that of `erosion` still, once it is changed.
/// What is changed stands there.
fn is_erosion_after(alloc: Global, change: Change) -> Result<bool, Fail> {
    let (from, to) = change;
    if !EROSION.contains(from) {
        Err("nothing to change")?;
    }
    let text = EROSION.replace(alloc, from, to)?;
    Ok(is_erosion(&program_of(alloc, text.as_str())?))
}

#[test]
fn the_shipped_program_is_erosion(rt: HostRuntime) -> Result<(), Fail> {
    let shipped = shipped_program(rt.alloc(), "erosion")?.ok_or("no program")?;
    assert!(rt; is_erosion(shipped.program()));
    let read = program_of(rt.alloc(), EROSION)?;
    assert!(rt; is_erosion(&read));
    assert!(rt; is_erosion(&read.with_guard(true)));
    Ok(())
}

#[test]
fn however_it_is_written_it_is_erosion(rt: HostRuntime) -> Result<(), Fail> {
    for change in &SAME {
        assert!(rt; is_erosion_after(rt.alloc(), *change)?, "{}", change.1);
    }
    Ok(())
}

#[test]
fn a_program_that_differs_in_one_place_is_not(rt: HostRuntime) -> Result<(), Fail> {
    for change in &OTHER {
        assert!(rt; !is_erosion_after(rt.alloc(), *change)?, "{}", change.1);
    }
    Ok(())
}

#[test]
fn other_programs_are_not(rt: HostRuntime) -> Result<(), Fail> {
    for text in &[EXCHANGED, HEXAGON, LINE, "program\nend\n"] {
        assert!(rt; !is_erosion(&program_of(rt.alloc(), text)?), "{text}");
    }
    Ok(())
}
