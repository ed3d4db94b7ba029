//! Rounds of runs: documents with what `rounds` writes of them, in each version;
//! and journals of runs on threads.

use crate::renewals::{check_all_different, check_all_refused};
use crate::slow_rounds::Table;
use action_eval::Runner;
use activation::NoGate;
use amoebot_run::Status::Done;
use amoebot_run::run_text;
use claim_core::Report;
use outer_io::SureSink;
use shape_files::{Form, read_sections};
use shipped_programs::{EROSION, HEXAGON};
use std::alloc::{AllocError, Global};
use std::sync::Wait;
use std::test::Fail;
use std::thread::Threads;
use tests_shared::calls::{check, check_rows, words};
use tests_shared::journals::COUNTED;
use tests_shared::pieces::{Told, spelled_with};
use tests_shared::replays::{Replayed, run_and_replay};
use tests_texts::Piece;

/// Pieces of the documents of this file.
static PIECES: [Piece; 7] = [
    // A contracted amoebot that has no mark takes one from a neighbour.
    (
        "PASS",
        "amoebot 1\nprogram\nvar m 1\n\
        action pass when m = 0 and any p in ports ( p . m = 1 ) do m := 1\nend\n",
    ),
    // Amoebots go to the right.
    (
        "LINE",
        "amoebot 1\nprogram\nguard off\naction out\n\
        when contracted and free head 0\nmove expand head 0\naction follow_up\n\
        when expanded\nmove contract tail\nend\n",
    ),
    // Two amoebots of which each one's way is free.
    (
        "TWO_ROWS",
        "shape\narea 0 0 8 8\nbot 0 1 0 1 0 +\nbot 0 5 0 5 0 +\nend\n",
    ),
    // Two neighbours of which the first has a mark, and apart from them
    // a third that has one beside a fourth.
    (
        "TWO_PLACES",
        "shape\narea 0 0 8 8\nbot 0 1 0 1 0 + 1\nbot 1 1 1 1 0 + 0\n\
        bot 2 1 2 1 0 + 0\nbot 0 5 0 5 0 + 1\nbot 1 5 1 5 0 + 0\n\
        end\n",
    ),
    (
        "THREE",
        "shape\narea 0 0 8 8\nbot 2 3 2 3 0 + 1\nbot 3 3 3 3 0 + 0\nbot 4 3 4 3 0 + 0\nend\n",
    ),
    // Two amoebots that want one node.
    (
        "TWO_FOR_ONE",
        "shape\narea 0 0 8 8\nbot 2 3 2 3 0 +\nbot 3 2 3 2 1 +\nend\n",
    ),
    ("NO_BOT", "shape\narea 0 0 8 8\nend\n"),
];

static NOBODY_ACTS: [Told; 4] = [
    // A round ends above the place at which it began.
    (
        "{MARK}{TWO}{NO_ENTRY}final\narea 0 0 8 8\nbot 2 3 2 3 0 + 0\nbot 3 3 3 3 0 + 0\nend\n",
        "rounds 0\nwaiting 2\n",
    ),
    (
        "{OUT}{NO_BOT}{NO_ENTRY}final\narea 0 0 8 8\nend\n",
        "rounds 0\nwaiting 0\n",
    ),
    // No amoebot of the ring is ever enabled.
    ("{ERODE}{SIX}{NO_ENTRY}{SIX_FINAL}", "rounds 0\nwaiting 0\n"),
    // What fails is not enabled.
    (
        "amoebot 1\nprogram\nvar m 4\naction a when true do m := 5\nend\n\
        shape\narea 0 0 8 8\nbot 2 3 2 3 0 + 0\nend\n{NO_ENTRY}\
        final\narea 0 0 8 8\nbot 2 3 2 3 0 + 0\nend\n",
        "rounds 0\nwaiting 0\n",
    ),
];

static ROUNDED: [Told; 9] = [
    // The ring erodes in the first round, and the one in its middle acts in the second.
    // It rested at the start of the first.
    (
        "{ERODE}{SEVEN}lists\nturns 8\nlist 0 1 2 3 4 5 6\nend\n{SEVEN_JOURNAL}{SEVEN_FINAL}",
        "rounds 2\nwaiting 0\n",
    ),
    (
        "{OUT}{ONE}{TWO_TURNS}{EXPANDED}\
        final\narea 0 0 8 8\nbot 3 3 2 3 0 +\nend\n\
        turns\nturn 0 0 done 0\nturn 0 1 idle 1\nend\n",
        "rounds 1\nwaiting 0\n",
    ),
    // One of two acts, and the other one waits.
    (
        "{MARK}{TWO}\
        journal\nentry 0 0 0 0 0 none body 0 2 3 2 3 0 + 1\nend\n\
        final\narea 0 0 8 8\nbot 2 3 2 3 0 + 1\nbot 3 3 3 3 0 + 0\nend\n",
        "rounds 0\nwaiting 1\n",
    ),
    // Both act, in either order.
    (
        "{MARK}{TWO}\
        journal\nentry 0 0 0 0 0 none body 0 2 3 2 3 0 + 1\nentry 1 1 1 1 0 none body 1 3 3 3 3 0 + 1\nend\n\
        final\narea 0 0 8 8\nbot 2 3 2 3 0 + 1\nbot 3 3 3 3 0 + 1\nend\n",
        "rounds 1\nwaiting 0\n",
    ),
    (
        "{MARK}{TWO}\
        journal\nentry 0 1 1 1 0 none body 1 3 3 3 3 0 + 1\nentry 1 0 0 0 0 none body 0 2 3 2 3 0 + 1\nend\n\
        final\narea 0 0 8 8\nbot 2 3 2 3 0 + 1\nbot 3 3 3 3 0 + 1\nend\n",
        "rounds 1\nwaiting 0\n",
    ),
    // The second amoebot rests at first, and then acts. It could act again, and change nothing.
    (
        "{DRAG}{TRAILED_0}{DRAGGED_JOURNAL}{DRAGGED_FINAL}",
        "rounds 2\nwaiting 1\n",
    ),
    // The second round begins where the journal ends.
    (
        "{DRAG}{TRAILED_0}\
        journal\nentry 0 0 0 0 0 pull tail 3 spot 2 3 1 body 0 3 3 3 3 0 + 0 body 1 2 3 1 3 0 + 0\nend\n\
        final\narea 0 0 8 8\nbot 3 3 3 3 0 + 0\nbot 2 3 1 3 0 + 0\nend\n",
        "rounds 1\nwaiting 1\n",
    ),
    // The second amoebot wanted the node that the first one entered:
    // it rests since another one acted.
    (
        "{OUT}{TWO_FOR_ONE}{EXPANDED}\
        final\narea 0 0 8 8\nbot 3 3 2 3 0 +\nbot 3 2 3 2 1 +\nend\n",
        "rounds 1\nwaiting 0\n",
    ),
    // Each entry is a round, although it changes nothing.
    (
        "amoebot 1\nprogram\naction a when true\nend\n{ONE}\
        journal\nentry 0 0 0 0 0 none\nentry 1 0 1 0 0 none\nend\n\
        final\narea 0 0 8 8\nbot 2 3 2 3 0 +\nend\n",
        "rounds 2\nwaiting 1\n",
    ),
];

static ENABLED_BY_OTHERS: [Told; 4] = [
    // The third amoebot rests at the start, and waits in the second round.
    (
        "{PASS}{THREE}\
        journal\nentry 0 0 0 1 0 none body 1 3 3 3 3 0 + 1\nend\n\
        final\narea 0 0 8 8\nbot 2 3 2 3 0 + 1\nbot 3 3 3 3 0 + 1\nbot 4 3 4 3 0 + 0\nend\n",
        "rounds 1\nwaiting 1\n",
    ),
    (
        "{PASS}{THREE}\
        journal\nentry 0 0 0 1 0 none body 1 3 3 3 3 0 + 1\nentry 1 0 1 2 0 none body 2 4 3 4 3 0 + 1\nend\n\
        final\narea 0 0 8 8\nbot 2 3 2 3 0 + 1\nbot 3 3 3 3 0 + 1\nbot 4 3 4 3 0 + 1\nend\n",
        "rounds 2\nwaiting 0\n",
    ),
    // Amoebot 2 rested at the start, so amoebot 4 alone waits.
    (
        "{PASS}{TWO_PLACES}\
        journal\nentry 0 0 0 1 0 none body 1 1 1 1 1 0 + 1\nend\n\
        final\narea 0 0 8 8\nbot 0 1 0 1 0 + 1\nbot 1 1 1 1 0 + 1\n\
        bot 2 1 2 1 0 + 0\nbot 0 5 0 5 0 + 1\nbot 1 5 1 5 0 + 0\n\
        end\n",
        "rounds 0\nwaiting 1\n",
    ),
    // In the next round amoebot 2 waits.
    (
        "{PASS}{TWO_PLACES}\
        journal\nentry 0 0 0 1 0 none body 1 1 1 1 1 0 + 1\nentry 1 1 0 4 0 none body 4 1 5 1 5 0 + 1\nend\n\
        final\narea 0 0 8 8\nbot 0 1 0 1 0 + 1\nbot 1 1 1 1 0 + 1\n\
        bot 2 1 2 1 0 + 0\nbot 0 5 0 5 0 + 1\nbot 1 5 1 5 0 + 1\n\
        end\n",
        "rounds 1\nwaiting 1\n",
    ),
];

static ROWS_OF_AMOEBOTS: [Told; 3] = [
    // One amoebot acts three times, and the other one waits all the while.
    (
        "{LINE}{TWO_ROWS}\
        journal\nentry 0 0 0 0 0 expand head 0 spot 1 1 0 body 0 1 1 0 1 0 +\n\
        entry 1 0 1 0 1 contract tail spot 0 1 empty body 0 1 1 1 1 0 +\n\
        entry 2 0 2 0 0 expand head 0 spot 2 1 0 body 0 2 1 1 1 0 +\nend\n\
        final\narea 0 0 8 8\nbot 2 1 1 1 0 +\nbot 0 5 0 5 0 +\nend\n",
        "rounds 0\nwaiting 1\n",
    ),
    (
        "{LINE}{TWO_ROWS}\
        journal\nentry 0 0 0 0 0 expand head 0 spot 1 1 0 body 0 1 1 0 1 0 +\n\
        entry 1 0 1 0 1 contract tail spot 0 1 empty body 0 1 1 1 1 0 +\n\
        entry 2 0 2 0 0 expand head 0 spot 2 1 0 body 0 2 1 1 1 0 +\n\
        entry 3 1 0 1 0 expand head 0 spot 1 5 1 body 1 1 5 0 5 0 +\nend\n\
        final\narea 0 0 8 8\nbot 2 1 1 1 0 +\nbot 1 5 0 5 0 +\nend\n",
        "rounds 1\nwaiting 2\n",
    ),
    // Alone, each entry is a round, up to the border of the area.
    (
        "{LINE}\
        shape\narea 0 0 3 1\nbot 0 0 0 0 0 +\nend\n\
        journal\nentry 0 0 0 0 0 expand head 0 spot 1 0 0 body 0 1 0 0 0 0 +\n\
        entry 1 0 1 0 1 contract tail spot 0 0 empty body 0 1 0 1 0 0 +\n\
        entry 2 0 2 0 0 expand head 0 spot 2 0 0 body 0 2 0 1 0 0 +\n\
        entry 3 0 3 0 1 contract tail spot 1 0 empty body 0 2 0 2 0 0 +\nend\n\
        final\narea 0 0 3 1\nbot 2 0 2 0 0 +\nend\n",
        "rounds 4\nwaiting 0\n",
    ),
];

/// Writes what `renew` makes of a document.
fn renew_into<R: Threads + Wait + Sync>(
    rt: &R,
    alloc: Global,
    document: &str,
    out: &mut SureSink,
) -> Result<(), Fail> {
    let words = words(alloc, &["renew"])?;
    let ended = run_text(rt, alloc, words.as_slice(), document.as_bytes(), out);
    if ended.status != Done {
        return Err(Fail::new(format_args!("not renewed: {document}")));
    }
    Ok(())
}

/// What `renew` writes of a document: the same in version 3.
fn renewed<R: Threads + Wait + Sync>(
    rt: &R,
    alloc: Global,
    document: &str,
) -> Result<Vec<u8>, Fail> {
    let mut out = SureSink::new(alloc, 4096)?;
    renew_into(rt, alloc, document, &mut out)?;
    let mut whole: Vec<u8> = Vec::new(alloc);
    whole.extend_from_slice(out.bytes())?;
    Ok(whole)
}

/// The command writes the same of each document in versions 1, 2 and 3.
pub(crate) fn check_told<R: Threads + Wait + Sync>(
    rt: &R,
    alloc: Global,
    word: &str,
    rows: &[Told],
) -> Result<(), Fail> {
    for (template, text) in rows {
        let first = spelled_with(alloc, template, &PIECES)?;
        let second = first.replacen(alloc, "amoebot 1\n", "amoebot 2\n", 1)?;
        let third = renewed(rt, alloc, first.as_str())?;
        for bytes in [first.as_bytes(), second.as_bytes(), third.as_slice()] {
            check(rt, alloc, &[word], bytes, Done, None, text)?;
        }
    }
    Ok(())
}

#[test]
fn without_an_entry_no_round_ends(rt: HostRuntime) -> Result<(), Fail> {
    check_told(&rt, rt.alloc(), "rounds", &NOBODY_ACTS)
}

#[test]
fn a_round_ends_when_each_has_acted_or_rested(rt: HostRuntime) -> Result<(), Fail> {
    check_told(&rt, rt.alloc(), "rounds", &ROUNDED)
}

#[test]
fn what_another_one_enables_waits_in_the_next_round(rt: HostRuntime) -> Result<(), Fail> {
    check_told(&rt, rt.alloc(), "rounds", &ENABLED_BY_OTHERS)
}

#[test]
fn an_amoebot_that_never_acts_holds_up_the_round(rt: HostRuntime) -> Result<(), Fail> {
    check_told(&rt, rt.alloc(), "rounds", &ROWS_OF_AMOEBOTS)
}

#[test]
fn rounds_differ_as_replay_does(rt: HostRuntime) -> Result<(), Fail> {
    check_rows(&rt, rt.alloc(), &COUNTED)?;
    check_all_different(&rt, rt.alloc(), &["rounds"])
}

#[test]
fn rounds_refuse_what_replay_refuses(rt: HostRuntime) -> Result<(), Fail> {
    check_all_refused(&rt, rt.alloc(), &["rounds"])
}

// ---- journals of runs on threads

/// As many lists as are wanted: the amoebots go round among them.
fn push_lists(
    alloc: Global,
    text: &mut String,
    bots: u16,
    lists: u16,
    turns: u16,
) -> Result<(), AllocError> {
    let head = format!(in alloc; "lists\nturns {turns}\n")?;
    text.push_str(&head)?;
    for caller in 0..lists {
        text.push_str("list")?;
        for id in 0..bots {
            if id.checked_rem(lists) == Some(caller) {
                let id = format!(in alloc; " {id}")?;
                text.push_str(&id)?;
            }
        }
        text.push_str("\n")?;
    }
    text.push_str("end\n")
}

/// A row of 23 amoebots, the first of which is the seed of a hexagon.
fn hexagon_of_23(alloc: Global, lists: u16, turns: u16) -> Result<String, AllocError> {
    let mut text = String::from_str(alloc, "amoebot 1\n")?;
    text.push_str(HEXAGON)?;
    text.push_str("shape\narea 0 0 48 32\nbot 12 16 12 16 0 + 1 6 0\n")?;
    for x in 13..35 {
        let bot = format!(in alloc; "bot {x} 16 {x} 16 0 + 0 6 6\n")?;
        text.push_str(&bot)?;
    }
    text.push_str("end\n")?;
    push_lists(alloc, &mut text, 23, lists, turns)?;
    Ok(text)
}

/// A square of twelve by twelve candidates.
pub(crate) fn erosion_of_144(alloc: Global, lists: u16, turns: u16) -> Result<String, AllocError> {
    let mut text = String::from_str(alloc, "amoebot 1\n")?;
    text.push_str(EROSION)?;
    text.push_str("shape\narea 0 0 16 16\n")?;
    for y in 2..14 {
        for x in 2..14 {
            let bot = format!(in alloc; "bot {x} {y} {x} {y} 0 + 1 0\n")?;
            text.push_str(&bot)?;
        }
    }
    text.push_str("end\n")?;
    push_lists(alloc, &mut text, 144, lists, turns)?;
    Ok(text)
}

/// The table of the report's journal.
fn table_of(alloc: Global, document: &str, report: &Report) -> Result<Table, Fail> {
    if document.len() > 1_000_000 {
        Err("a short document")?;
    }
    let Ok(sections) = read_sections(alloc, document.as_bytes(), Form::Run) else {
        return Err(Fail::from("a document"));
    };
    let parts = sections.into_parts();
    let runner = Runner::new(parts.checked.ok_or("a program")?);
    let world = parts.world.ok_or("a shape")?;
    Table::of(alloc, &runner, world, report.journal.entries())
}

/// Runs the document. What `rounds` writes of its journal is what the table says.
fn check_run<R: Threads + Wait + Sync>(rt: &R, alloc: Global, document: &str) -> Result<(), Fail> {
    let Replayed { report, whole } = run_and_replay(rt, alloc, "run", document, &NoGate)?;
    if report.journal.entries().is_empty() {
        return Err(Fail::from("no entry"));
    }
    let (rounds, waiting) = table_of(alloc, document, &report)?.rounds();
    let text = format!(in alloc; "rounds {rounds}\nwaiting {waiting}\n")?;
    check(
        rt,
        alloc,
        &["rounds"],
        whole.as_slice(),
        Done,
        None,
        text.as_str(),
    )
}

#[test]
fn rounds_of_hexagons_on_threads_are_those_of_the_table(rt: HostRuntime) -> Result<(), Fail> {
    for (lists, turns) in [(4, 600), (16, 300)] {
        let document = hexagon_of_23(rt.alloc(), lists, turns)?;
        check_run(&rt, rt.alloc(), document.as_str())?;
    }
    Ok(())
}

#[test]
fn rounds_of_erosions_on_threads_are_those_of_the_table(rt: HostRuntime) -> Result<(), Fail> {
    for (lists, turns) in [(4, 432), (16, 108)] {
        let document = erosion_of_144(rt.alloc(), lists, turns)?;
        check_run(&rt, rt.alloc(), document.as_str())?;
    }
    Ok(())
}
