//! Documents of version 3: journals with the old values of cells.
//! Runs under each version, and journals that were tampered with.

use amoebot_run::Status::{Differs, Done};
use amoebot_state::{Entry, PlainEntry};
use shape_files::{Form, Parts, read_sections};
use std::alloc::Global;
use std::process::Abort;
use std::sync::Wait;
use std::test::Fail;
use std::thread::Threads;
use tests_shared::calls::{check, check_faults, check_rows};
use tests_shared::pieces::{Fault, Row, spelled};
use text_tokens::RefusalKind::{BadEntry, BadPlace, BadRange, Unexpected};

/// A document that has one text in each version, apart from its journal: the word of its command,
/// itself in version 1, how many entries there are, the journal of versions 1 and 2,
/// that of version 3, and the rest of the text.
type Run = (
    &'static str,
    &'static str,
    usize,
    &'static str,
    &'static str,
    &'static str,
);

static RUNS: [Run; 12] = [
    // An amoebot expands.
    (
        "run",
        "{OUT}{ONE}{TWO_TURNS}",
        1,
        "{EXPANDED}",
        "{EXPANDED_3}",
        "{EXPANDED_FINAL}{WORKED_TURNS}",
    ),
    // The amoebot is turned and mirrored.
    (
        "run",
        "amoebot 1\nprogram\naction a when contracted move expand head 1\nend\n\
        shape\narea 0 0 8 8\nbot 2 3 2 3 5 -\nend\n{ONE_TURN}",
        1,
        "journal\nentry 0 0 0 0 0 expand head 1 spot 2 2 0 body 0 2 2 2 3 5 -\nend\n",
        "journal\n\
        entry 0 0 0 0 0 expand head 1 spot 2 2 empty to 0 body 0 2 3 2 3 5 - to 2 2 2 3 5 -\nend\n",
        "final\narea 0 0 8 8\nbot 2 2 2 3 5 -\nend\n{DONE}",
    ),
    // A push: the node had the other amoebot, and has the one that pushes.
    (
        "run",
        "{PUSH}shape\narea 0 0 8 8\nbot 2 3 2 3 0 +\nbot 3 3 4 3 0 +\nend\n{ONE_TURN}",
        1,
        "journal\n\
        entry 0 0 0 0 0 push head 0 spot 3 3 0 body 0 3 3 2 3 0 + body 1 4 3 4 3 0 +\nend\n",
        "journal\n\
        entry 0 0 0 0 0 push head 0 spot 3 3 1 to 0 \
        body 0 2 3 2 3 0 + to 3 3 2 3 0 + body 1 3 3 4 3 0 + to 4 3 4 3 0 +\nend\n",
        "final\narea 0 0 8 8\nbot 3 3 2 3 0 +\nbot 4 3 4 3 0 +\nend\n{DONE}",
    ),
    // A pull: the node had the one that pulls.
    (
        "run",
        "{PULL}{TRAILED}{ONE_TURN}",
        1,
        "{PULLED}",
        "journal\n\
        entry 0 0 0 0 0 pull tail 3 spot 2 3 0 to 1 \
        body 0 3 3 2 3 0 + to 3 3 3 3 0 + body 1 1 3 1 3 0 + to 2 3 1 3 0 +\nend\n",
        "final\narea 0 0 8 8\nbot 3 3 3 3 0 +\nbot 2 3 1 3 0 +\nend\n{DONE}",
    ),
    // With the guard on there is no entry.
    (
        "run",
        "{GUARDED}{TRAILED}{ONE_TURN}",
        0,
        "{NO_ENTRY}",
        "{NO_ENTRY}",
        "final\narea 0 0 8 8\nbot 3 3 2 3 0 +\nbot 1 3 1 3 0 +\nend\n\
        turns\nturn 0 0 failed would_split 0\nend\n",
    ),
    // With the guard off the node that is left becomes empty.
    (
        "run",
        "{UNGUARDED}{TRAILED}{ONE_TURN}",
        1,
        "journal\nentry 0 0 0 0 0 contract tail spot 2 3 empty body 0 3 3 3 3 0 +\nend\n",
        "journal\n\
        entry 0 0 0 0 0 contract tail spot 2 3 0 to empty body 0 3 3 2 3 0 + to 3 3 3 3 0 +\nend\n",
        "final\narea 0 0 8 8\nbot 3 3 3 3 0 +\nbot 1 3 1 3 0 +\nend\n{DONE}",
    ),
    // A neighbour's value is written twice: the old value is the one before both.
    (
        "run",
        "amoebot 1\nprogram\nvar m 3\n\
        action a when true do head 2 . m := 1 ; tail 1 . m := head 2 . m + 1\nend\n\
        shape\narea 0 0 8 8\nbot 3 3 2 3 0 + 0\nbot 2 4 2 4 0 + 0\nend\n{ONE_TURN}",
        1,
        "journal\nentry 0 0 0 0 0 none body 1 2 4 2 4 0 + 2\nend\n",
        "journal\nentry 0 0 0 0 0 none body 1 2 4 2 4 0 + 0 to 2 4 2 4 0 + 2\nend\n",
        "final\narea 0 0 8 8\nbot 3 3 2 3 0 + 0\nbot 2 4 2 4 0 + 2\nend\n{DONE}",
    ),
    // The own value is written and written back: nothing differs.
    (
        "run",
        "amoebot 1\nprogram\nvar m 1\naction a when true do m := 1 ; m := 0\nend\n\
        shape\narea 0 0 8 8\nbot 2 3 2 3 0 + 0\nend\n{TWO_TURNS}",
        2,
        "{TWICE_NOTHING}",
        "{TWICE_NOTHING}",
        "final\narea 0 0 8 8\nbot 2 3 2 3 0 + 0\nend\n\
        turns\nturn 0 0 done 0\nturn 0 1 done 1\nend\n",
    ),
    // And so is a neighbour's.
    (
        "run",
        "amoebot 1\nprogram\nvar m 1\n\
        action a when true do head 0 . m := 1 ; head 0 . m := 0\nend\n{TWO}{TWO_TURNS}",
        2,
        "{TWICE_NOTHING}",
        "{TWICE_NOTHING}",
        "final\narea 0 0 8 8\nbot 2 3 2 3 0 + 0\nbot 3 3 3 3 0 + 0\nend\n\
        turns\nturn 0 0 done 0\nturn 0 1 done 1\nend\n",
    ),
    // Caller 1 finds a node held, and marks its amoebot in its second turn.
    (
        "interleave",
        "{MARK}{TWO}{TWO_EACH}schedule 0 times 8 1 times 4 0 times 12 1 times 20 end\n",
        2,
        "journal\n\
        entry 0 0 0 0 0 none body 0 2 3 2 3 0 + 1\n\
        entry 1 1 1 1 0 none body 1 3 3 3 3 0 + 1\n\
        end\n",
        "journal\n\
        entry 0 0 0 0 0 none body 0 2 3 2 3 0 + 0 to 2 3 2 3 0 + 1\n\
        entry 1 1 1 1 0 none body 1 3 3 3 3 0 + 0 to 3 3 3 3 0 + 1\n\
        end\n",
        "final\narea 0 0 8 8\nbot 2 3 2 3 0 + 1\nbot 3 3 3 3 0 + 1\nend\n\
        turns\nturn 0 0 done 0\nturn 0 1 idle 2\n\
        turn 1 0 busy spot 3 3 by 0 0 0 place 0\nturn 1 1 done 1\nend\n",
    ),
    // The amoebot that makes a note was pulled before: the second entry's old
    // value is the first one's new value.
    (
        "interleave",
        "{DRAG}{TRAILED_0}{TWO_EACH}schedule 1 times 19 0 times 26 1 times 26 end\n",
        2,
        "{DRAGGED_JOURNAL}",
        "{DRAGGED_JOURNAL_3}",
        "{DRAGGED_FINAL}\
        turns\nturn 0 0 done 0\nturn 0 1 idle 2\nturn 1 0 idle 0\nturn 1 1 done 1\nend\n",
    ),
    // The second caller commits first.
    (
        "interleave",
        "{OUT}{FAR}{ONE_EACH}schedule 1 times 10 end\n",
        2,
        "{FAR_JOURNAL}",
        "journal\n\
        entry 0 1 0 1 0 expand head 0 spot 7 6 empty to 1 body 1 6 6 6 6 0 + to 7 6 6 6 0 +\n\
        entry 1 0 0 0 0 expand head 0 spot 2 1 empty to 0 body 0 1 1 1 1 0 + to 2 1 1 1 0 +\n\
        end\n",
        "{FAR_FINAL}turns\nturn 0 0 done 1\nturn 1 0 done 0\nend\n",
    ),
];

/// Entries that name what is not there, stand at another place,
/// or are written as in another version.
/// The entry stands on line 14.
pub static REFUSED: [Fault; 10] = [
    (
        "replay",
        "{OUT_3}{ONE}{TWO_TURNS}\
        journal\nentry 1 0 0 0 0 expand head 0 spot 3 3 empty to 0 body 0 2 3 2 3 0 + to 3 3 2 3 0 +\n{REST}",
        14,
        BadPlace,
        "refused 14 BadPlace\n",
    ),
    (
        "replay",
        "{OUT_3}{ONE}{TWO_TURNS}\
        journal\nentry 0 16 0 0 0 expand head 0 spot 3 3 empty to 0 \
        body 0 2 3 2 3 0 + to 3 3 2 3 0 +\n{REST}",
        14,
        BadEntry,
        "refused 14 BadEntry\n",
    ),
    (
        "replay",
        "{OUT_3}{ONE}{TWO_TURNS}\
        journal\nentry 0 0 0 1 0 expand head 0 spot 3 3 empty to 0 body 0 2 3 2 3 0 + to 3 3 2 3 0 +\n{REST}",
        14,
        BadEntry,
        "refused 14 BadEntry\n",
    ),
    (
        "replay",
        "{OUT_3}{ONE}{TWO_TURNS}\
        journal\nentry 0 0 0 0 1 expand head 0 spot 3 3 empty to 0 body 0 2 3 2 3 0 + to 3 3 2 3 0 +\n{REST}",
        14,
        BadEntry,
        "refused 14 BadEntry\n",
    ),
    // There is no amoebot 1 that was on the node.
    (
        "replay",
        "{OUT_3}{ONE}{TWO_TURNS}\
        journal\nentry 0 0 0 0 0 expand head 0 spot 3 3 1 to 0 body 0 2 3 2 3 0 + to 3 3 2 3 0 +\n{REST}",
        14,
        BadEntry,
        "refused 14 BadEntry\n",
    ),
    // The rotation before is judged as the one behind `to` is.
    (
        "replay",
        "{OUT_3}{ONE}{TWO_TURNS}\
        journal\nentry 0 0 0 0 0 expand head 0 spot 3 3 empty to 0 body 0 2 3 2 3 6 + to 3 3 2 3 0 +\n{REST}",
        14,
        BadRange,
        "refused 14 BadRange\n",
    ),
    // Version 3 wants old values: behind the occupant comes `to`.
    (
        "replay",
        "{OUT_3}{ONE}{TWO_TURNS}\
        journal\nentry 0 0 0 0 0 expand head 0 spot 3 3 0\nbody 0 3 3 2 3 0 +\n{REST}",
        15,
        Unexpected,
        "refused 15 Unexpected\n",
    ),
    // The versions before have no word `to`.
    (
        "replay",
        "amoebot 2\nprogram\naction out when contracted move expand head 0\nend\n{ONE}{TWO_TURNS}\
        journal\nentry 0 0 0 0 0 expand head 0 spot 3 3 empty\n\
        to 0 body 0 2 3 2 3 0 + to 3 3 2 3 0 +\n{REST}",
        15,
        Unexpected,
        "refused 15 Unexpected\n",
    ),
    (
        "replay",
        "{OUT}{ONE}{TWO_TURNS}\
        journal\nentry 0 0 0 0 0 expand head 0 spot 3 3 empty\n\
        to 0 body 0 2 3 2 3 0 + to 3 3 2 3 0 +\n{REST}",
        15,
        Unexpected,
        "refused 15 Unexpected\n",
    ),
    // There is no version 4.
    (
        "replay",
        "amoebot 4\nprogram\naction out when contracted move expand head 0\n\
        end\n{ONE}{TWO_TURNS}{EXPANDED_3}{EXPANDED_FINAL}",
        1,
        BadRange,
        "refused 1 BadRange\n",
    ),
];

/// The worked example in version 3, in which the entry is the same or another one.
pub static COMPARED: [Row; 13] = [
    (
        "replay",
        "{OUT_3}{ONE}{TWO_TURNS}{EXPANDED_3}{EXPANDED_FINAL}",
        Done,
        None,
        "agrees 1\n",
    ),
    // Another caller and turn. A journal says nothing of lists.
    (
        "replay",
        "{OUT_3}{ONE}{TWO_TURNS}\
        journal\nentry 0 3 9 0 0 expand head 0 spot 3 3 empty to 0 body 0 2 3 2 3 0 + to 3 3 2 3 0 +\n{REST}",
        Done,
        None,
        "agrees 1\n",
    ),
    // Another rotation behind `to`, and before it.
    (
        "replay",
        "{OUT_3}{ONE}{TWO_TURNS}\
        journal\nentry 0 0 0 0 0 expand head 0 spot 3 3 empty to 0 body 0 2 3 2 3 0 + to 3 3 2 3 1 +\n{REST}",
        Differs(0),
        None,
        "differs 0\n",
    ),
    (
        "replay",
        "{OUT_3}{ONE}{TWO_TURNS}\
        journal\nentry 0 0 0 0 0 expand head 0 spot 3 3 empty to 0 body 0 2 3 2 3 1 + to 3 3 2 3 0 +\n{REST}",
        Differs(0),
        None,
        "differs 0\n",
    ),
    // The node was not empty.
    (
        "replay",
        "{OUT_3}{ONE}{TWO_TURNS}\
        journal\nentry 0 0 0 0 0 expand head 0 spot 3 3 0 to 0 body 0 2 3 2 3 0 + to 3 3 2 3 0 +\n{REST}",
        Differs(0),
        None,
        "differs 0\n",
    ),
    // The old values and the new ones, exchanged.
    (
        "replay",
        "{OUT_3}{ONE}{TWO_TURNS}\
        journal\nentry 0 0 0 0 0 expand head 0 spot 3 3 0 to empty body 0 3 3 2 3 0 + to 2 3 2 3 0 +\n{REST}",
        Differs(0),
        None,
        "differs 0\n",
    ),
    // The two cells, the other way round.
    (
        "replay",
        "{OUT_3}{ONE}{TWO_TURNS}\
        journal\nentry 0 0 0 0 0 expand head 0 body 0 2 3 2 3 0 + to 3 3 2 3 0 + spot 3 3 empty to 0\n{REST}",
        Differs(0),
        None,
        "differs 0\n",
    ),
    // Another node, which was empty as well.
    (
        "replay",
        "{OUT_3}{ONE}{TWO_TURNS}\
        journal\nentry 0 0 0 0 0 expand head 0 spot 3 4 empty to 0 body 0 2 3 2 3 0 + to 3 3 2 3 0 +\n{REST}",
        Differs(0),
        None,
        "differs 0\n",
    ),
    // The node left out.
    (
        "replay",
        "{OUT_3}{ONE}{TWO_TURNS}\
        journal\nentry 0 0 0 0 0 expand head 0 body 0 2 3 2 3 0 + to 3 3 2 3 0 +\n{REST}",
        Differs(0),
        None,
        "differs 0\n",
    ),
    // A cell more, which did not change.
    (
        "replay",
        "{OUT_3}{ONE}{TWO_TURNS}\
        journal\nentry 0 0 0 0 0 expand head 0 spot 3 3 empty to 0 \
        body 0 2 3 2 3 0 + to 3 3 2 3 0 + spot 2 3 0 to 0\n{REST}",
        Differs(0),
        None,
        "differs 0\n",
    ),
    // The entry a second time.
    (
        "replay",
        "{OUT_3}{ONE}{TWO_TURNS}\
        journal\nentry 0 0 0 0 0 expand head 0 spot 3 3 empty to 0 body 0 2 3 2 3 0 + to 3 3 2 3 0 +\n\
        entry 1 0 0 0 0 expand head 0 spot 3 3 empty to 0 body 0 2 3 2 3 0 + to 3 3 2 3 0 +\n{REST}",
        Differs(1),
        None,
        "differs 1\n",
    ),
    // No entry.
    (
        "replay",
        "{OUT_3}{ONE}{TWO_TURNS}journal\n{REST}",
        Differs(0),
        None,
        "differs 0\n",
    ),
    // Each entry is a step, and the last shape is that of the start.
    (
        "replay",
        "{OUT_3}{ONE}{EXPANDED_3}final\narea 0 0 8 8\nbot 2 3 2 3 0 +\nend\n",
        Differs(1),
        None,
        "differs 1\n",
    ),
];

/// Version 3 has walls as version 2 does, and the other commands have no use for old values.
static COMMANDS: [Row; 4] = [
    (
        "run",
        "amoebot 3\nprogram\naction a when true move push head 0\nend\n\
        shape\narea 0 0 8 8\nwall 3 2\nwall 2 4\nbot 2 3 2 3 0 +\nbot 3 3 4 3 0 +\nend\n{ONE_TURN}",
        Done,
        Some(1),
        "journal\n\
        entry 0 0 0 0 0 push head 0 spot 3 3 1 to 0 \
        body 0 2 3 2 3 0 + to 3 3 2 3 0 + body 1 3 3 4 3 0 + to 4 3 4 3 0 +\n\
        end\n\
        final\narea 0 0 8 8\nwall 3 2\nwall 2 4\nbot 3 3 2 3 0 +\nbot 4 3 4 3 0 +\nend\n{DONE}",
    ),
    (
        "run",
        "{OUT_3}shape\narea 0 0 8 8\nwall 3 3\nbot 2 3 2 3 0 +\nend\n{ONE_TURN}",
        Done,
        Some(0),
        "{NO_ENTRY}\
        final\narea 0 0 8 8\nwall 3 3\nbot 2 3 2 3 0 +\nend\n\
        turns\nturn 0 0 failed blocked 0\nend\n",
    ),
    (
        "check",
        "amoebot 03 program action a when true end\n",
        Done,
        None,
        "amoebot 3\nprogram\nguard off\naction a\nwhen true\nmove none\nend\n",
    ),
    (
        "measure",
        "{OUT_3}{ONE}{EXPANDED_3}{EXPANDED_FINAL}",
        Done,
        None,
        "bots 1\nconnected yes\nhexagon no\n",
    ),
];

/// The document of this template, which begins with version 1, in another version.
fn in_version(alloc: Global, version: &str, template: &str) -> Result<String, Fail> {
    Ok(spelled(alloc, template)?.replacen(alloc, "amoebot 1", version, 1)?)
}

/// The journal of a text in a version, and what stands behind it.
fn text_in(alloc: Global, version: &str, run: &Run) -> Result<String, Fail> {
    let (_, _, _, plain, full, rest) = run;
    let journal = if version == "amoebot 3" { full } else { plain };
    let mut text = spelled(alloc, journal)?;
    text.push_str(spelled(alloc, rest)?.as_str())?;
    Ok(text)
}

/// A document with its text behind it, in a version.
fn replayed_in(alloc: Global, version: &str, run: &Run) -> Result<String, Fail> {
    let mut whole = in_version(alloc, version, run.1)?;
    whole.push_str(text_in(alloc, version, run)?.as_str())?;
    Ok(whole)
}

/// In a version the document leaves its text, and agrees with it.
fn check_in<R: Threads + Wait + Sync>(
    rt: &R,
    alloc: Global,
    version: &str,
    run: &Run,
) -> Result<(), Fail> {
    check_by(rt, alloc, run.0, version, run)?;
    let whole = replayed_in(alloc, version, run)?;
    let agrees = format!(in alloc; "agrees {}\n", run.2)?;
    check(
        rt,
        alloc,
        &["replay"],
        whole.as_bytes(),
        Done,
        None,
        agrees.as_str(),
    )
}

/// In a version each document leaves its text, and agrees with it.
fn check_runs_in<R: Threads + Wait + Sync>(
    rt: &R,
    alloc: Global,
    version: &str,
) -> Result<(), Fail> {
    for run in &RUNS {
        check_in(rt, alloc, version, run)?;
    }
    Ok(())
}

/// In a version the document leaves its text by a word.
fn check_by<R: Threads + Wait + Sync>(
    rt: &R,
    alloc: Global,
    word: &str,
    version: &str,
    run: &Run,
) -> Result<(), Fail> {
    let document = in_version(alloc, version, run.1)?;
    let text = text_in(alloc, version, run)?;
    check(
        rt,
        alloc,
        &[word],
        document.as_bytes(),
        Done,
        Some(run.2),
        text.as_str(),
    )
}

/// What a document with its text behind it has, in a version.
fn parts_in(alloc: Global, version: &str, run: &Run) -> Result<Parts, Fail> {
    let whole = replayed_in(alloc, version, run)?;
    Ok(parts_of(alloc, whole.as_str()).ok_or("a document")?)
}

fn parts_of(alloc: Global, document: &str) -> Option<Parts> {
    if document.len() > 1_000_000 {
        return None;
    }
    let Ok(sections) = read_sections(alloc, document.as_bytes(), Form::Replay) else {
        return None;
    };
    Some(sections.into_parts())
}

/// Whether the first is the second without its old values.
fn is_plain(plain: &PlainEntry, entry: &Entry) -> bool {
    are_same(plain, &entry.plain())
}

fn are_same(one: &PlainEntry, other: &PlainEntry) -> bool {
    one.caller == other.caller
        && one.turn == other.turn
        && one.bot == other.bot
        && one.action == other.action
        && one.moved == other.moved
        && one.patch.pairs() == other.patch.pairs()
}

fn all_same(one: &[PlainEntry], other: &[PlainEntry]) -> bool {
    one.len() == other.len()
        && one
            .iter()
            .zip(other)
            .all(|(one, other)| are_same(one, other))
}

fn all_plain(plain: &[PlainEntry], entries: &[Entry]) -> bool {
    plain.len() == entries.len()
        && plain
            .iter()
            .zip(entries)
            .all(|(plain, entry)| is_plain(plain, entry))
}

/// Whether two documents have these entries without their old values,
/// and the third has them with them.
fn have_one_journal(first: &Parts, second: &Parts, third: &Parts, many: usize) -> bool {
    if first.entries.is_some() || second.entries.is_some() || third.plain.is_some() {
        return false;
    }
    match (&first.plain, &second.plain, &third.entries) {
        (Some(one), Some(other), Some(full)) => {
            one.entries().len() == many
                && all_same(one.entries(), other.entries())
                && all_plain(one.entries(), full.entries())
        }
        _ => false,
    }
}

/// Versions 1 and 2 give the entries of version 3, without their old values.
fn check_entries<R: Abort>(rt: &R, alloc: Global, run: &Run) -> Result<(), Fail> {
    let first = parts_in(alloc, "amoebot 1", run)?;
    let second = parts_in(alloc, "amoebot 2", run)?;
    let third = parts_in(alloc, "amoebot 3", run)?;
    assert!(rt; have_one_journal(&first, &second, &third, run.2));
    Ok(())
}

#[test]
fn a_run_has_old_values_in_version_3(rt: HostRuntime) -> Result<(), Fail> {
    check_runs_in(&rt, rt.alloc(), "amoebot 3")
}

#[test]
fn a_run_has_no_old_values_in_versions_1_and_2(rt: HostRuntime) -> Result<(), Fail> {
    check_runs_in(&rt, rt.alloc(), "amoebot 1")?;
    check_runs_in(&rt, rt.alloc(), "amoebot 2")
}

/// The journal has old values in version 3 alone.
#[test]
fn tickets_keep_the_version_of_the_document(rt: HostRuntime) -> Result<(), Fail> {
    for run in &RUNS {
        if run.0 == "run" {
            for version in ["amoebot 1", "amoebot 2", "amoebot 3"] {
                check_by(&rt, rt.alloc(), "tickets", version, run)?;
            }
        }
    }
    Ok(())
}

#[test]
fn each_version_has_the_same_plain_entries(rt: HostRuntime) -> Result<(), Fail> {
    for run in &RUNS {
        check_entries(&rt, rt.alloc(), run)?;
    }
    Ok(())
}

#[test]
fn entries_that_are_none_of_version_3_are_refused(rt: HostRuntime) -> Result<(), Fail> {
    check_faults(&rt, rt.alloc(), &REFUSED)
}

#[test]
fn old_values_that_were_tampered_with_differ(rt: HostRuntime) -> Result<(), Fail> {
    check_rows(&rt, rt.alloc(), &COMPARED)
}

#[test]
fn version_3_has_walls_and_serves_other_commands(rt: HostRuntime) -> Result<(), Fail> {
    check_rows(&rt, rt.alloc(), &COMMANDS)
}
