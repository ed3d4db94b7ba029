//! Documents that are renewed: in version 3, with the program in its canonical form
//! and the old values in the journal.

use crate::{old_values, tampered};
use amoebot_run::Status::{self, Done};
use std::alloc::Global;
use std::sync::Wait;
use std::test::Fail;
use std::thread::Threads;
use tests_shared::calls::{check, check_rows};
use tests_shared::journals::{DIFFERENT, RENEWED};
use tests_shared::pieces::{Fault, Row, spelled};
use text_tokens::Refusal;
use text_tokens::RefusalKind::{OutOfBox, Trailing, Truncated, Unexpected, WrongSection};

/// A document on which the journal agrees; what `replay` says of it; and what `renew` writes of it.
pub type Renewal = (&'static str, &'static str, &'static str);

const BOTH: [&str; 2] = ["replay", "renew"];

pub static RENEWALS: [Renewal; 9] = [
    (
        "{OUT}{ONE}{TWO_TURNS}{EXPANDED}{EXPANDED_FINAL}{WORKED_TURNS}",
        "agrees 1\n",
        "{OUT_RENEWED}{ONE}{EXPANDED_3}{EXPANDED_FINAL}",
    ),
    // From the other versions comes the same.
    (
        "amoebot 2\nprogram\naction out when contracted move expand head 0\nend\n\
        {ONE}{TWO_TURNS}{EXPANDED}{EXPANDED_FINAL}{WORKED_TURNS}",
        "agrees 1\n",
        "{OUT_RENEWED}{ONE}{EXPANDED_3}{EXPANDED_FINAL}",
    ),
    (
        "{OUT_3}{ONE}{TWO_TURNS}\
        schedule\n0 times 3\nend\n{EXPANDED_3}{EXPANDED_FINAL}{WORKED_TURNS}",
        "agrees 1\n",
        "{OUT_RENEWED}{ONE}{EXPANDED_3}{EXPANDED_FINAL}",
    ),
    // The caller and the turn of an entry stay, even if no list has them.
    (
        "{OUT}{ONE}\
        journal\nentry 0 3 9 0 0 expand head 0 spot 3 3 0 body 0 3 3 2 3 0 +\nend\n{EXPANDED_FINAL}",
        "agrees 1\n",
        "{OUT_RENEWED}{ONE}\
        journal\nentry 0 3 9 0 0 expand head 0 spot 3 3 empty to 0 \
        body 0 2 3 2 3 0 + to 3 3 2 3 0 +\nend\n{EXPANDED_FINAL}",
    ),
    // The old value of the second entry is the new one of the first.
    (
        "{DRAG}{TRAILED_0}{DRAGGED_JOURNAL}{DRAGGED_FINAL}",
        "agrees 2\n",
        "amoebot 3\nprogram\nguard off\nvar m 1\naction drag\n\
        when expanded and linked tail 3 and not peer_expanded tail 3\n\
        move pull tail 3\naction note\nwhen expanded\ndo m := 1\nmove none\nend\n\
        {TRAILED_0}{DRAGGED_JOURNAL_3}{DRAGGED_FINAL}",
    ),
    // What is far apart may happen in either order.
    (
        "{OUT}{FAR}{ONE_EACH}{FAR_EXCHANGED}{FAR_FINAL}",
        "agrees 2\n",
        "{OUT_RENEWED}{FAR}{FAR_EXCHANGED_3}{FAR_FINAL}",
    ),
    // Walls are printed row by row. There is no entry.
    (
        "amoebot 2\nprogram\naction out when contracted move expand head 0\nend\n\
        shape\narea 0 0 8 8\nwall 3 3\nwall 5 2\nbot 2 3 2 3 0 +\nend\n{NO_ENTRY}\
        final\narea 0 0 8 8\nwall 5 2\nwall 3 3\nbot 2 3 2 3 0 +\nend\n\
        turns\nturn 0 0 failed blocked 0\nend\n",
        "agrees 0\n",
        "{OUT_RENEWED}\
        shape\narea 0 0 8 8\nwall 5 2\nwall 3 3\nbot 2 3 2 3 0 +\nend\n{NO_ENTRY}\
        final\narea 0 0 8 8\nwall 5 2\nwall 3 3\nbot 2 3 2 3 0 +\nend\n",
    ),
    // An action that changes nothing.
    (
        "amoebot 1\nprogram\nvar m 1\naction a when true do m := 1 ; m := 0\nend\n\
        shape\narea 0 0 8 8\nbot 2 3 2 3 0 + 0\nend\n\
        journal\nentry 0 0 0 0 0 none\nend\n\
        final\narea 0 0 8 8\nbot 2 3 2 3 0 + 0\nend\n",
        "agrees 1\n",
        "amoebot 3\nprogram\nguard off\nvar m 1\naction a\nwhen true\ndo m := 1 ; m := 0\nmove none\nend\n\
        shape\narea 0 0 8 8\nbot 2 3 2 3 0 + 0\nend\n\
        journal\nentry 0 0 0 0 0 none\nend\n\
        final\narea 0 0 8 8\nbot 2 3 2 3 0 + 0\nend\n",
    ),
    // Comments, sections on one line, parentheses, zeros before numbers, lists,
    // a schedule and turns are left out.
    (
        "# An amoebot writes.\namoebot 01 program # no guard\n\
        var m 03 action a when ( ( m = 00 ) ) do m := 1 ; m := m + 1 \
        end shape area 0 -0 008 8 bot 2 3 2 3 0 + 0 end lists \
        turns 1 list 0 end schedule 0 times 3 end journal\n\
        entry 0 0 0 0 0 none body 0 2 3 02 3 0 + 2 # done\n\
        end final area 0 0 8 8\nbot 2 3 2 3 0 + 2 end turns turn 0 0 done 0 end",
        "agrees 1\n",
        "amoebot 3\nprogram\nguard off\nvar m 3\naction a\n\
        when m = 0\ndo m := 1 ; m := m + 1\nmove none\nend\n\
        shape\narea 0 0 8 8\nbot 2 3 2 3 0 + 0\nend\n\
        journal\nentry 0 0 0 0 0 none body 0 2 3 2 3 0 + 0 to 2 3 2 3 0 + 2\nend\n\
        final\narea 0 0 8 8\nbot 2 3 2 3 0 + 2\nend\n",
    ),
];

/// Documents that are none of the form Replay.
pub static REFUSED: [Fault; 5] = [
    // There is no journal.
    (
        "replay",
        "{OUT}{ONE}{TWO_TURNS}",
        13,
        Truncated,
        "refused 13 Truncated\n",
    ),
    (
        "replay",
        "{OUT}{ONE}{EXPANDED}{EXPANDED_FINAL}more\n",
        16,
        Trailing,
        "refused 16 Trailing\n",
    ),
    (
        "replay",
        "{OUT}{ONE}{EXPANDED_FINAL}",
        9,
        WrongSection,
        "refused 9 WrongSection\n",
    ),
    (
        "replay",
        "{OUT}shape\narea 0 0 8 8\nbot 9 3 9 3 0 +\nend\n",
        7,
        OutOfBox,
        "refused 7 OutOfBox\n",
    ),
    (
        "replay",
        "amoebot 3\nprogram\naction a when true move none do m := 0\nend\n",
        3,
        Unexpected,
        "refused 3 Unexpected\n",
    ),
];

/// The document is renewed, and what comes of that is renewed to itself.
/// `replay` says the same of both.
fn check_renewal<R: Threads + Wait + Sync>(
    rt: &R,
    alloc: Global,
    renewal: &Renewal,
) -> Result<(), Fail> {
    let (template, agrees, text) = renewal;
    let document = spelled(alloc, template)?;
    let text = spelled(alloc, text)?;
    for bytes in [document.as_bytes(), text.as_bytes()] {
        check(rt, alloc, &["replay"], bytes, Done, None, agrees)?;
        check(rt, alloc, &["renew"], bytes, Done, None, text.as_str())?;
    }
    Ok(())
}

/// Each of the commands refuses each document as its row says.
fn check_refused<R: Threads + Wait + Sync>(
    rt: &R,
    alloc: Global,
    commands: &[&str],
    faults: &[Fault],
) -> Result<(), Fail> {
    for (_, template, line, kind, text) in faults {
        let document = spelled(alloc, template)?;
        for word in commands {
            let status = Status::Refused(Refusal {
                line: *line,
                kind: *kind,
            });
            check(rt, alloc, &[word], document.as_bytes(), status, None, text)?;
        }
    }
    Ok(())
}

/// Each of the commands says of each journal that differs what its row says.
fn check_different<R: Threads + Wait + Sync>(
    rt: &R,
    alloc: Global,
    commands: &[&str],
    rows: &[Row],
) -> Result<(), Fail> {
    for (_, template, status, entries, text) in rows {
        let document = spelled(alloc, template)?;
        let text = spelled(alloc, text)?;
        if *status != Done {
            for word in commands {
                check(
                    rt,
                    alloc,
                    &[word],
                    document.as_bytes(),
                    *status,
                    *entries,
                    text.as_str(),
                )?;
            }
        }
    }
    Ok(())
}

/// Each of the commands refuses what `replay` refuses.
pub(crate) fn check_all_refused<R: Threads + Wait + Sync>(
    rt: &R,
    alloc: Global,
    commands: &[&str],
) -> Result<(), Fail> {
    check_refused(rt, alloc, commands, &REFUSED)?;
    check_refused(rt, alloc, commands, &old_values::REFUSED)?;
    check_refused(rt, alloc, commands, &tampered::REFUSED)
}

/// Each of the commands says what `replay` says of journals that were tampered with and differ.
pub(crate) fn check_all_different<R: Threads + Wait + Sync>(
    rt: &R,
    alloc: Global,
    commands: &[&str],
) -> Result<(), Fail> {
    check_different(rt, alloc, commands, &old_values::COMPARED)?;
    check_different(rt, alloc, commands, &tampered::COMPARED)
}

#[test]
fn a_document_is_renewed_once_and_then_stays(rt: HostRuntime) -> Result<(), Fail> {
    check_rows(&rt, rt.alloc(), &RENEWED)?;
    for renewal in &RENEWALS {
        check_renewal(&rt, rt.alloc(), renewal)?;
    }
    Ok(())
}

#[test]
fn a_journal_that_differs_is_not_renewed(rt: HostRuntime) -> Result<(), Fail> {
    check_different(&rt, rt.alloc(), &BOTH, &DIFFERENT)?;
    check_all_different(&rt, rt.alloc(), &BOTH)
}

#[test]
fn renew_refuses_what_replay_refuses(rt: HostRuntime) -> Result<(), Fail> {
    check_all_refused(&rt, rt.alloc(), &BOTH)
}
