//! Elections: documents with what `elect` writes of them, in each version;
//! programs and shapes that it refuses; and journals of runs on threads.

use crate::renewals::check_all_refused;
use crate::rounds::{check_told, erosion_of_144};
use activation::NoGate;
use amoebot_run::Status::{self, Differs, Done};
use amoebot_state::World;
use std::alloc::{AllocError, Global};
use std::sync::Wait;
use std::test::Fail;
use std::thread::Threads;
use tests_shared::calls::{check, check_faults, check_rows};
use tests_shared::journals::ELECTIONS;
use tests_shared::pieces::{Fault, Told, spelled};
use tests_shared::replays::{Replayed, run_and_replay};
use text_tokens::Refusal;
use text_tokens::RefusalKind::{self, BadEntry, BadStart, NotErosion};

/// A change of a text: what is replaced, with what, and how often at most.
type Change = (&'static str, &'static str, usize);

static ELECTED: [Told; 6] = [
    // The ring gives up, and the one in its middle leads.
    (
        "{ERODE}{SEVEN}lists\nturns 8\nlist 0 1 2 3 4 5 6\nend\n{SEVEN_JOURNAL}{SEVEN_FINAL}",
        "candidates 1\nleader 0\n",
    ),
    // In a ring round an empty node nobody gives up.
    (
        "{ERODE}{SIX}lists\nturns 6\nlist 0 1 2 3 4 5\nend\n{NO_ENTRY}{SIX_FINAL}",
        "candidates 6\nleader none\n",
    ),
    (
        "{ERODE}\
        shape\narea 0 0 8 8\nbot 2 3 2 3 0 + 1 0\nend\n\
        journal\nentry 0 0 0 0 0 none body 0 2 3 2 3 0 + 1 1\nend\n\
        final\narea 0 0 8 8\nbot 2 3 2 3 0 + 1 1\nend\n",
        "candidates 1\nleader 0\n",
    ),
    (
        "{ERODE}{TWO_CANDIDATES}\
        journal\nentry 0 0 0 0 1 none body 0 2 3 2 3 0 + 0 0\n\
        entry 1 0 1 1 0 none body 1 3 3 3 3 0 + 1 1\nend\n\
        final\narea 0 0 8 8\nbot 2 3 2 3 0 + 0 0\nbot 3 3 3 3 0 + 1 1\nend\n",
        "candidates 1\nleader 1\n",
    ),
    // Four in a row, with other rotations and chiralities: the ends give up, then the second,
    // and the third leads.
    (
        "{ERODE}\
        shape\narea 0 0 8 8\nbot 1 3 1 3 5 - 1 0\nbot 2 3 2 3 2 + 1 0\n\
        bot 3 3 3 3 3 - 1 0\nbot 4 3 4 3 4 + 1 0\nend\n\
        journal\nentry 0 0 1 0 1 none body 0 1 3 1 3 5 - 0 0\nentry 1 0 3 3 1 none body 3 4 3 4 3 4 + 0 0\n\
        entry 2 0 4 1 1 none body 1 2 3 2 3 2 + 0 0\nentry 3 0 6 2 0 none body 2 3 3 3 3 3 - 1 1\nend\n\
        final\narea 0 0 8 8\nbot 1 3 1 3 5 - 0 0\nbot 2 3 2 3 2 + 0 0\n\
        bot 3 3 3 3 3 - 1 1\nbot 4 3 4 3 4 + 0 0\nend\n",
        "candidates 1\nleader 2\n",
    ),
    // A ring with a tail of two: the tail gives up, and the ring stays.
    (
        "{ERODE}\
        shape\narea 0 0 8 8\nbot 4 3 4 3 0 + 1 0\nbot 3 4 3 4 0 + 1 0\n\
        bot 2 4 2 4 0 + 1 0\nbot 2 3 2 3 0 + 1 0\n\
        bot 3 2 3 2 0 + 1 0\nbot 4 2 4 2 0 + 1 0\nbot 5 3 5 3 0 + 1 0\nbot 6 3 6 3 0 + 1 0\nend\n\
        journal\nentry 0 0 0 7 1 none body 7 6 3 6 3 0 + 0 0\n\
        entry 1 0 1 6 1 none body 6 5 3 5 3 0 + 0 0\nend\n\
        final\narea 0 0 8 8\nbot 4 3 4 3 0 + 1 0\nbot 3 4 3 4 0 + 1 0\n\
        bot 2 4 2 4 0 + 1 0\nbot 2 3 2 3 0 + 1 0\n\
        bot 3 2 3 2 0 + 1 0\nbot 4 2 4 2 0 + 1 0\nbot 5 3 5 3 0 + 0 0\nbot 6 3 6 3 0 + 0 0\nend\n",
        "candidates 6\nleader none\n",
    ),
];

/// Changes of the program that leave its tree, apart from lines and the guard.
static STILL_EROSION: [Change; 8] = [
    ("guard off\n", "guard on\n", 1),
    ("guard off\n", "", 1),
    ("do leader := 1\n", "do leader := 1 move none\n", 1),
    ("do cand := 0\n", "do cand := 0 move none\n", 1),
    (
        "when cand = 1 and leader",
        "when ( cand = 1 ) and leader",
        1,
    ),
    ("( p . cand = 1 )\n", "( ( p . cand = 1 ) )\n", 1),
    ("var cand 1\n", "var cand 001\n", 1),
    // One token a line.
    (" ", "\n", 1000),
];

/// Changes of the program that make it another one.
static NO_EROSION: [Change; 20] = [
    ("var cand 1\n", "var cand 2\n", 1),
    ("var leader 1\n", "var leader 2\n", 1),
    (
        "var cand 1\nvar leader 1\n",
        "var leader 1\nvar cand 1\n",
        1,
    ),
    ("cand", "kand", 100),
    ("leader", "chief", 100),
    ("action lead\n", "action win\n", 1),
    ("action erode\n", "action wear\n", 1),
    ("turn p 1", "turn p 2", 2),
    (") ) = 1\n", ") ) <= 1\n", 1),
    (") ) = 1\n", ") ) = 2\n", 1),
    ("do cand := 0\n", "do cand := 0 ; cand := 0\n", 1),
    ("do cand := 0\n", "do cand := 1 - 1\n", 1),
    ("do cand := 0\n", "do leader := 0\n", 1),
    ("do leader := 1\n", "do leader := 0\n", 1),
    ("and leader = 0 ", "", 1),
    ("any p in ports", "all p in ports", 1),
    ("count p in ports", "count p in free", 1),
    ("any p in ports ( p ", "any q in ports ( q ", 1),
    ("do cand := 0\n", "do cand := 0 move contract tail\n", 1),
    ("do cand := 0\n", "do cand := 0 action more when false\n", 1),
];

/// The actions exchanged, and one of them alone.
static OTHER_PROGRAMS: [&str; 3] = [
    "amoebot 1\nprogram\nguard off\nvar cand 1\nvar leader 1\n\
    action erode\nwhen cand = 1 and count p in ports ( p . cand = 1\n \
    and not ( linked turn p 1 and turn p 1 . cand = 1 ) ) = 1\ndo cand := 0\n\
    action lead\nwhen cand = 1 and leader = 0 and not any p in ports ( p . cand = 1 )\n\
    do leader := 1\nend\n",
    "amoebot 1\nprogram\nguard off\nvar cand 1\nvar leader 1\naction lead\n\
    when cand = 1 and leader = 0 and not any p in ports ( p . cand = 1 )\ndo leader := 1\nend\n",
    "amoebot 1\nprogram\nguard off\nvar cand 1\nvar leader 1\nend\n",
];

/// What is refused behind a document that has no fault.
static NOT_ELECTED: [Fault; 11] = [
    // Another program, with its run.
    (
        "elect",
        "{OUT}{ONE}{TWO_TURNS}{EXPANDED}\
        final\narea 0 0 8 8\nbot 3 3 2 3 0 +\nend\n\
        turns\nturn 0 0 done 0\nturn 0 1 idle 1\nend\n",
        0,
        NotErosion,
        "refused 0 NotErosion\n",
    ),
    // The program is judged before the shape.
    (
        "elect",
        "{OUT}\
        shape\narea 0 0 8 8\nbot 3 3 2 3 0 +\nend\n{NO_ENTRY}\
        final\narea 0 0 8 8\nbot 3 3 2 3 0 +\nend\n",
        0,
        NotErosion,
        "refused 0 NotErosion\n",
    ),
    // One of the ring is no candidate.
    (
        "elect",
        "{ERODE}\
        shape\narea 0 0 8 8\nbot 4 3 4 3 0 + 1 0\nbot 3 4 3 4 0 + 1 0\n\
        bot 2 4 2 4 0 + 0 0\nbot 2 3 2 3 0 + 1 0\n\
        bot 3 2 3 2 0 + 1 0\nbot 4 2 4 2 0 + 1 0\nend\n{NO_ENTRY}\
        final\narea 0 0 8 8\nbot 4 3 4 3 0 + 1 0\nbot 3 4 3 4 0 + 1 0\n\
        bot 2 4 2 4 0 + 0 0\nbot 2 3 2 3 0 + 1 0\n\
        bot 3 2 3 2 0 + 1 0\nbot 4 2 4 2 0 + 1 0\nend\n",
        0,
        BadStart,
        "refused 0 BadStart\n",
    ),
    // There is no amoebot.
    (
        "elect",
        "{ERODE}shape\narea 0 0 8 8\nend\n{NO_ENTRY}final\narea 0 0 8 8\nend\n",
        0,
        BadStart,
        "refused 0 BadStart\n",
    ),
    // It is expanded.
    (
        "elect",
        "{ERODE}\
        shape\narea 0 0 8 8\nbot 3 3 2 3 0 + 1 0\nend\n{NO_ENTRY}\
        final\narea 0 0 8 8\nbot 3 3 2 3 0 + 1 0\nend\n",
        0,
        BadStart,
        "refused 0 BadStart\n",
    ),
    // It leads already; this comes before the journal, which does not agree.
    (
        "elect",
        "{ERODE}\
        shape\narea 0 0 8 8\nbot 2 3 2 3 0 + 1 1\nend\n{NO_ENTRY}\
        final\narea 0 0 8 8\nbot 2 3 2 3 0 + 1 0\nend\n",
        0,
        BadStart,
        "refused 0 BadStart\n",
    ),
    // Two that do not touch.
    (
        "elect",
        "{ERODE}\
        shape\narea 0 0 8 8\nbot 2 3 2 3 0 + 1 0\nbot 5 5 5 5 0 + 1 0\nend\n{NO_ENTRY}\
        final\narea 0 0 8 8\nbot 2 3 2 3 0 + 1 0\nbot 5 5 5 5 0 + 1 0\nend\n",
        0,
        BadStart,
        "refused 0 BadStart\n",
    ),
    // The second of two that touch is not ready, and the first one is.
    (
        "elect",
        "{ERODE}\
        shape\narea 0 0 8 8\nbot 2 3 2 3 0 + 1 0\nbot 3 3 3 3 0 + 1 1\nend\n{NO_ENTRY}\
        final\narea 0 0 8 8\nbot 2 3 2 3 0 + 1 0\nbot 3 3 3 3 0 + 1 1\nend\n",
        0,
        BadStart,
        "refused 0 BadStart\n",
    ),
    // The document comes first: there is no caller 16.
    (
        "elect",
        "{OUT}{ONE}\
        journal\nentry 0 16 0 0 0 none\nend\n\
        final\narea 0 0 8 8\nbot 2 3 2 3 0 +\nend\n",
        10,
        BadEntry,
        "refused 10 BadEntry\n",
    ),
    (
        "elect",
        "{ERODE}\
        shape\narea 0 0 8 8\nbot 2 3 2 3 0 + 1 1\nend\n\
        journal\nentry 0 16 0 0 0 none\nend\n\
        final\narea 0 0 8 8\nbot 2 3 2 3 0 + 1 1\nend\n",
        19,
        BadEntry,
        "refused 19 BadEntry\n",
    ),
    // In version 3 the same.
    (
        "elect",
        "amoebot 3\nprogram\naction out when contracted move expand head 0\nend\n{ONE}{NO_ENTRY}\
        final\narea 0 0 8 8\nbot 2 3 2 3 0 +\nend\n",
        0,
        NotErosion,
        "refused 0 NotErosion\n",
    ),
];

/// Changes of the document of seven, and what `elect` says of it then.
static CHANGED: [(Change, Status, &str); 6] = [
    // In `shape` an amoebot is no candidate. This refusal comes before what the journal lacks.
    (
        ("bot 2 4 2 4 0 + 1 0\n", "bot 2 4 2 4 0 + 0 0\n", 1),
        Status::Refused(Refusal {
            line: 0,
            kind: BadStart,
        }),
        "refused 0 BadStart\n",
    ),
    // In `final` nobody leads.
    (
        ("bot 3 3 3 3 0 + 1 1\n", "bot 3 3 3 3 0 + 1 0\n", 1),
        Differs(7),
        "differs 7\n",
    ),
    // Two entries exchanged: amoebot 5 may give up before amoebot 4.
    (
        (
            "entry 3 0 4 4 1 none body 4 2 3 2 3 0 + 0 0\nentry 4 0 5 5 1 none body 5 3 2 3 2 0 + 0 0\n",
            "entry 3 0 5 5 1 none body 5 3 2 3 2 0 + 0 0\nentry 4 0 4 4 1 none body 4 2 3 2 3 0 + 0 0\n",
            1,
        ),
        Done,
        "candidates 1\nleader 0\n",
    ),
    // The one in the middle may not give up first.
    (
        (
            "entry 0 0 1 1 1 none body 1 4 3 4 3 0 + 0 0\n",
            "entry 0 0 0 0 1 none body 0 3 3 3 3 0 + 0 0\n",
            1,
        ),
        Differs(0),
        "differs 0\n",
    ),
    // Nor may it lead first.
    (
        (
            "entry 0 0 1 1 1 none body 1 4 3 4 3 0 + 0 0\n",
            "entry 0 0 0 0 0 none body 0 3 3 3 3 0 + 1 1\n",
            1,
        ),
        Differs(0),
        "differs 0\n",
    ),
    // The last entry is one of the other action.
    (
        ("entry 6 0 7 0 0 none", "entry 6 0 7 0 1 none", 1),
        Differs(6),
        "differs 6\n",
    ),
];

/// The document of seven with this program.
fn seven_by(alloc: Global, program: &str) -> Result<String, Fail> {
    let behind = spelled(alloc, "{SEVEN}{SEVEN_JOURNAL}{SEVEN_FINAL}")?;
    let mut document = String::from_str(alloc, program)?;
    document.push_str(behind.as_str())?;
    Ok(document)
}

/// A document of one amoebot with this program, and with no entry.
fn one_by(alloc: Global, program: &str) -> Result<String, AllocError> {
    let mut document = String::from_str(alloc, program)?;
    document.push_str(
        "shape
area 0 0 8 8
bot 2 3 2 3 0 + 1 0
end
journal
end
",
    )?;
    document.push_str(
        "final
area 0 0 8 8
bot 2 3 2 3 0 + 1 0
end
",
    )?;
    Ok(document)
}

/// `elect` refuses this program.
fn check_no_erosion<R: Threads + Wait + Sync>(
    rt: &R,
    alloc: Global,
    program: &str,
) -> Result<(), Fail> {
    let document = one_by(alloc, program)?;
    let status = Status::Refused(Refusal {
        line: 0,
        kind: RefusalKind::NotErosion,
    });
    let text = "refused 0 NotErosion\n";
    check(
        rt,
        alloc,
        &["elect"],
        document.as_bytes(),
        status,
        None,
        text,
    )
}

#[test]
fn candidates_are_counted_and_the_leader_is_named(rt: HostRuntime) -> Result<(), Fail> {
    check_told(&rt, rt.alloc(), "elect", &ELECTED)?;
    check_rows(&rt, rt.alloc(), &ELECTIONS)
}

#[test]
fn lines_parentheses_and_the_guard_do_not_matter(rt: HostRuntime) -> Result<(), Fail> {
    let erode = spelled(rt.alloc(), "{ERODE}")?;
    for (from, to, most) in &STILL_EROSION {
        let program = erode.replacen(rt.alloc(), from, to, *most)?;
        let document = seven_by(rt.alloc(), program.as_str())?;
        let text = "candidates 1\nleader 0\n";
        check(
            &rt,
            rt.alloc(),
            &["elect"],
            document.as_bytes(),
            Done,
            None,
            text,
        )?;
    }
    Ok(())
}

#[test]
fn each_other_program_is_no_erosion(rt: HostRuntime) -> Result<(), Fail> {
    let erode = spelled(rt.alloc(), "{ERODE}")?;
    for (from, to, most) in &NO_EROSION {
        let program = erode.replacen(rt.alloc(), from, to, *most)?;
        check_no_erosion(&rt, rt.alloc(), program.as_str())?;
    }
    for program in &OTHER_PROGRAMS {
        check_no_erosion(&rt, rt.alloc(), program)?;
    }
    Ok(())
}

#[test]
fn starts_that_are_not_ready_are_refused_behind_the_document(rt: HostRuntime) -> Result<(), Fail> {
    check_faults(&rt, rt.alloc(), &NOT_ELECTED)
}

#[test]
fn elect_judges_the_start_and_then_the_journal(rt: HostRuntime) -> Result<(), Fail> {
    let erode = spelled(rt.alloc(), "{ERODE}")?;
    let document = seven_by(rt.alloc(), erode.as_str())?;
    for ((from, to, most), status, text) in &CHANGED {
        let changed = document.replacen(rt.alloc(), from, to, *most)?;
        check(
            &rt,
            rt.alloc(),
            &["elect"],
            changed.as_bytes(),
            *status,
            None,
            text,
        )?;
    }
    Ok(())
}

#[test]
fn elect_refuses_what_replay_refuses(rt: HostRuntime) -> Result<(), Fail> {
    check_all_refused(&rt, rt.alloc(), &["elect"])
}

// ---- journals of runs on threads

/// What `elect` has to write of a run to this world.
fn election_in(alloc: Global, world: &World) -> Result<String, AllocError> {
    let mut candidates: u32 = 0;
    let mut leader = None;
    for id in 0..world.bots() {
        let bot = world.bot(id);
        if bot.mem[0] == 1 {
            candidates = candidates.saturating_add(1);
        }
        if bot.mem[1] == 1 && leader.is_none() {
            leader = Some(id);
        }
    }
    match leader {
        Some(id) => format!(in alloc; "candidates {candidates}\nleader {id}\n"),
        None => format!(in alloc; "candidates {candidates}\nleader none\n"),
    }
}

/// Runs the document. What `elect` writes of its journal is what the report's shape says.
fn check_election<R: Threads + Wait + Sync>(
    rt: &R,
    alloc: Global,
    document: &str,
) -> Result<(), Fail> {
    let Replayed { report, whole } = run_and_replay(rt, alloc, "run", document, &NoGate)?;
    let text = election_in(alloc, &report.world)?;
    check(
        rt,
        alloc,
        &["elect"],
        whole.as_slice(),
        Done,
        None,
        text.as_str(),
    )
}

#[test]
fn elections_on_threads_are_those_of_the_last_shape(rt: HostRuntime) -> Result<(), Fail> {
    // In three turns of each list the square is not eroded yet.
    for (lists, turns) in [(4, 3), (4, 432), (16, 108)] {
        let document = erosion_of_144(rt.alloc(), lists, turns)?;
        check_election(&rt, rt.alloc(), document.as_str())?;
    }
    Ok(())
}
