//! Documents that are drawn from a seed: small shapes, of which many have walls,
//! with programs that move, write and fail.
//! The text of one list is the same by each word that makes its turns.
//! Of several lists each report passes the simple checker, and its text agrees under `replay`.
ghost use Rattle.std.specs.Prelude.{◌≡◌, ◌≤◌, ◌<◌, IfOk};

use crate::meetings::ON_THREADS;
use crate::reports::check_reports;
use amoebot_run::{Status, run_text};
use outer_io::SureSink;
use rand_core::SeedableRng;
use rand_core::utils::NextWord;
use rand_pcg::Pcg32;
use std::alloc::{AllocError, Global};
use std::process::Abort;
use std::sync::Wait;
use std::test::Fail;
use std::thread::Threads;
use tests_shared::calls::words;

/// A program, without its first and its last line, and what may stand
/// at the end of an amoebot's line.
type Program = (&'static str, [&'static str; 6]);

static PROGRAMS: [Program; 6] = [
    // It goes out, whatever is before it.
    (
        "action out when contracted move expand head 0\n",
        ["", "", "", "", "", ""],
    ),
    // It goes out and comes back.
    (
        "action out when contracted move expand head 0\naction back when expanded move contract head\n",
        ["", "", "", "", "", ""],
    ),
    // It goes where it can, and takes along the one behind it.
    (
        "guard on\naction out when contracted and free head 0 move expand head 0\n\
        action drag when expanded and linked tail 3 and not peer_expanded tail 3 move pull tail 3\n\
        action rest when expanded move contract tail\n",
        ["", "", "", "", "", ""],
    ),
    // It marks itself once.
    (
        "var m 1\naction mark when m = 0 do m := 1\n",
        [" 0", " 0", " 0", " 0", " 0", " 1"],
    ),
    // A light spreads.
    (
        "var lit 1\naction light when lit = 0 and any p in ports ( p . lit = 1 ) do lit := 1\n",
        [" 1", " 0", " 0", " 0", " 0", " 0"],
    ),
    // It goes ahead, and veers where it cannot.
    (
        "var d 5\naction ahead when contracted and free head d move expand head d\n\
        action rest when expanded do d := inner move contract tail\n\
        action veer when contracted do d := mod6 ( d + 1 )\n",
        [" 0", " 1", " 2", " 3", " 4", " 5"],
    ),
];

// ---- drawing

/// A number below another one.
fn draw(generator: &mut Pcg32, below: u32) -> u32
    requires { 1 ≤ below }
    ensures { result < below }
{
    generator.next_word() % below
}

/// Whether there may be a wall on this node. No two such nodes are neighbours.
fn may_be_wall(x: u32, y: u32) -> bool {
    y.wrapping_mul(3).wrapping_add(x) % 7 == 3
}

/// A wall on each seventh node.
fn push_walls(alloc: Global, text: &mut String, width: u32, height: u32) -> Result<(), AllocError> {
    for y in 0..height {
        for x in 0..width {
            if may_be_wall(x, y) {
                let wall = format!(in alloc; "wall {x} {y}\n")?;
                text.push_str(&wall)?;
            }
        }
    }
    Ok(())
}

/// A contracted amoebot on this node.
fn push_bot(
    alloc: Global,
    text: &mut String,
    generator: &mut Pcg32,
    node: (u32, u32),
    ends: &[&'static str; 6],
) -> Result<(), AllocError> {
    let (x, y) = node;
    let rotation = draw(generator, 6);
    let chirality = if draw(generator, 2) == 0 { "+" } else { "-" };
    let end = ends[draw(generator, 6) as usize];
    let bot = format!(in alloc; "bot {x} {y} {x} {y} {rotation} {chirality}{end}\n")?;
    text.push_str(&bot)
}

/// One to eight amoebots, each third node has one.
/// Where none was drawn above the last row, its first node has one.
/// How many there are.
fn push_bots(
    alloc: Global,
    text: &mut String,
    generator: &mut Pcg32,
    size: (u32, u32),
    walled: bool,
    ends: &[&'static str; 6],
) -> Result<u32, AllocError> {
    let (width, height) = size;
    let mut bots = 0;
    for y in 0..height {
        for x in 0..width {
            let is_free = !walled || !may_be_wall(x, y);
            let is_needed = bots == 0 && y.wrapping_add(1) == height;
            if is_free && bots < 8 && (is_needed || draw(generator, 3) == 0) {
                push_bot(alloc, text, generator, (x, y), ends)?;
                bots += 1;
            }
        }
    }
    Ok(bots)
}

/// An area of four by four to eight by eight nodes, with walls or without.
/// How many amoebots there are.
fn push_shape(
    alloc: Global,
    text: &mut String,
    generator: &mut Pcg32,
    walled: bool,
    ends: &[&'static str; 6],
) -> Result<u32, AllocError> {
    let width = 4 + draw(generator, 5);
    let height = 4 + draw(generator, 5);
    let head = format!(in alloc; "shape\narea 0 0 {width} {height}\n")?;
    text.push_str(&head)?;
    if walled {
        push_walls(alloc, text, width, height)?;
    }
    let bots = push_bots(alloc, text, generator, (width, height), walled, ends)?;
    text.push_str("end\n")?;
    Ok(bots)
}

/// A list of one to four amoebots.
fn push_list(
    alloc: Global,
    text: &mut String,
    generator: &mut Pcg32,
    bots: u32,
) -> Result<(), AllocError>
    requires { 1 ≤ bots }
{
    text.push_str("list")?;
    for _ in 0..=draw(generator, 4) {
        let id = format!(in alloc; " {}", draw(generator, bots))?;
        text.push_str(&id)?;
    }
    text.push_str("\n")
}

/// So many lists, one to twelve turns of each, and a schedule without steps.
fn push_lists(
    alloc: Global,
    text: &mut String,
    generator: &mut Pcg32,
    bots: u32,
    lists: u32,
) -> Result<(), AllocError>
    requires { 1 ≤ bots }
{
    let head = format!(in alloc; "lists\nturns {}\n", 1 + draw(generator, 12))?;
    text.push_str(&head)?;
    for _list in 0..lists {
        push_list(alloc, text, generator, bots)?;
    }
    text.push_str("end\nschedule\nend\n")
}

/// The document of a seed, with so many lists. There are walls in versions 2 and 3.
fn generated(alloc: Global, seed: u64, lists: u32) -> Result<String, Fail> {
    let mut generator = Pcg32::seed_from_u64(seed);
    let version = 1 + draw(&mut generator, 3);
    let (program, ends) = &PROGRAMS[draw(&mut generator, 6) as usize];
    let mut text = format!(in alloc; "amoebot {version}\nprogram\n{program}end\n")?;
    let bots = push_shape(alloc, &mut text, &mut generator, version > 1, ends)?;
    if bots == 0 {
        Err("no amoebot")?;
    }
    push_lists(alloc, &mut text, &mut generator, bots, lists)?;
    Ok(text)
}

// ---- what becomes of them

/// Writes what a word makes of the document. How many entries there are.
fn write_by<R: Abort + Threads + Wait + Sync>(
    rt: &R,
    alloc: Global,
    word: &str,
    document: &str,
    out: &mut SureSink,
) -> Result<usize, Fail> {
    let words = words(alloc, &[word])?;
    let ended = run_text(rt, alloc, words.as_slice(), document.as_bytes(), out);
    assert!(rt; ended.status == Status::Done);
    let report = ended.report.ok_or("a report")?;
    Ok(report.journal.entries().len())
}

/// Each word writes what `interleave` writes. How many entries there are.
fn write_one_text<R: Abort + Threads + Wait + Sync>(
    rt: &R,
    alloc: Global,
    document: &str,
) -> Result<usize, Fail> {
    let mut wanted = SureSink::new(alloc, 100_000)?;
    let entries = write_by(rt, alloc, "interleave", document, &mut wanted)?;
    for word in ON_THREADS {
        let mut found = SureSink::new(alloc, 100_000)?;
        write_by(rt, alloc, word, document, &mut found)?;
        assert!(rt; found.bytes() == wanted.bytes(), "{word} of {document}");
    }
    Ok(entries)
}

/// Two hundred documents of one list. On the whole there is an entry for each of them at least.
#[test]
fn each_word_writes_one_text_of_one_list(rt: HostRuntime) -> Result<(), Fail> {
    let mut entries: usize = 0;
    for seed in 1..201 {
        let document = generated(rt.alloc(), seed, 1)?;
        let more = write_one_text(&rt, rt.alloc(), document.as_str())?;
        entries = entries.saturating_add(more);
    }
    assert!(rt; entries >= 200, "{entries}");
    Ok(())
}

/// The document of the seed leaves right reports.
fn check_seed<R: Abort + Threads + Wait + Sync>(
    rt: &R,
    alloc: Global,
    seed: u64,
    lists: u32,
) -> Result<(), Fail> {
    let document = generated(alloc, seed, lists)?;
    check_reports(rt, alloc, document.as_str(), seed)
}

/// A hundred and twelve documents of two to nine lists.
#[test]
fn each_word_leaves_right_reports_of_some_lists(rt: HostRuntime) -> Result<(), Fail> {
    for seed in 1..113u64 {
        check_seed(&rt, rt.alloc(), seed, 2 + (seed % 8) as u32)?;
    }
    Ok(())
}

/// Eighty-eight documents of ten to sixteen lists.
#[test]
fn each_word_leaves_right_reports_of_many_lists(rt: HostRuntime) -> Result<(), Fail> {
    for seed in 113..201u64 {
        check_seed(&rt, rt.alloc(), seed, 10 + (seed % 7) as u32)?;
    }
    Ok(())
}
