//! Journals that are gone back along: the shape at a place, seen from the last shape,
//! or where there is no step back.

use crate::renewals::RENEWALS;
use crate::rewind_faults::{NO_REWINDS, OTHER_FRAMES, REFUSED, Refused, Rewinding, TAMPERED};
use amoebot_run::Status::{self, Differs, Done};
use std::alloc::Global;
use std::sync::Wait;
use std::test::Fail;
use std::thread::Threads;
use tests_shared::calls::{check, words_of};
use tests_shared::pieces::{USAGE, spelled, spelled_with};
use tests_texts::Piece;
use text_tokens::Refusal;

/// Pieces of the documents of this file, and of what is written of them.
static PIECES: [Piece; 25] = [
    // ---- programs, in version 3
    (
        "DRAG_3",
        "amoebot 3\nprogram\nvar m 1\n\
        action drag when expanded and linked tail 3 and not peer_expanded tail 3 move pull tail 3\n\
        action note when expanded do m := 1\nend\n",
    ),
    // An action that is done and changes nothing.
    ("STILL", "amoebot 3\nprogram\naction a when true\nend\n"),
    (
        "LINE",
        "amoebot 3\nprogram\naction out when contracted and free head 0 move expand head 0\n\
        action follow_up when expanded move contract tail\nend\n",
    ),
    (
        "ERODE_3",
        "amoebot 3\nprogram\nvar cand 1\nvar leader 1\n\
        action lead when cand = 1 and leader = 0 and not any p in ports ( p . cand = 1 ) do leader := 1\n\
        action erode when cand = 1 and count p in ports ( p . cand = 1 and not ( linked turn p 1 \
        and turn p 1 . cand = 1 ) ) = 1 do cand := 0\nend\n",
    ),
    // ---- shapes, and a last shape
    // The last shape of the worked example, as the shape at a place.
    (
        "EXPANDED_SHAPE",
        "shape\narea 0 0 8 8\nbot 3 3 2 3 0 +\nend\n",
    ),
    // An amoebot that is nowhere in the journal's last shape.
    ("ELSEWHERE", "shape\narea 0 0 8 8\nbot 5 5 5 5 0 +\nend\n"),
    (
        "DRAGGED_SHAPE",
        "shape\narea 0 0 8 8\nbot 3 3 3 3 0 + 0\nbot 2 3 1 3 0 + 0\nend\n",
    ),
    (
        "NOTED_SHAPE",
        "shape\narea 0 0 8 8\nbot 3 3 3 3 0 + 0\nbot 2 3 1 3 0 + 1\nend\n",
    ),
    // An amoebot far from where the journal leads.
    ("CORNER", "shape\narea 0 0 8 8\nbot 1 1 1 1 0 +\nend\n"),
    ("STILL_FINAL", "final\narea 0 0 8 8\nbot 2 3 2 3 0 +\nend\n"),
    // ---- journals
    // The amoebot expands twice, which it cannot do.
    (
        "EXPANDED_TWICE",
        "journal\nentry 0 0 0 0 0 expand head 0 spot 3 3 empty to 0 body 0 2 3 2 3 0 + to 3 3 2 3 0 +\n\
        entry 1 0 1 0 0 expand head 0 spot 3 3 empty to 0 body 0 2 3 2 3 0 + to 3 3 2 3 0 +\nend\n",
    ),
    // The note's old value is its new one.
    (
        "NOTED_BEFORE",
        "journal\n\
        entry 0 0 0 0 0 pull tail 3 spot 2 3 0 to 1 body 0 3 3 2 3 0 + 0 to 3 3 3 3 0 + 0 \
        body 1 1 3 1 3 0 + 0 to 2 3 1 3 0 + 0\n\
        entry 1 1 1 1 1 none body 1 2 3 1 3 0 + 1 to 2 3 1 3 0 + 1\nend\n",
    ),
    // The entry names the other action for the pull.
    (
        "PULLED_BY_NOTE",
        "journal\n\
        entry 0 0 0 0 1 pull tail 3 spot 2 3 0 to 1 body 0 3 3 2 3 0 + 0 to 3 3 3 3 0 + 0 \
        body 1 1 3 1 3 0 + 0 to 2 3 1 3 0 + 0\n\
        entry 1 1 1 1 1 none body 1 2 3 1 3 0 + 0 to 2 3 1 3 0 + 1\nend\n",
    ),
    // Both.
    (
        "BOTH_WRONG",
        "journal\n\
        entry 0 0 0 0 1 pull tail 3 spot 2 3 0 to 1 body 0 3 3 2 3 0 + 0 to 3 3 3 3 0 + 0 \
        body 1 1 3 1 3 0 + 0 to 2 3 1 3 0 + 0\n\
        entry 1 1 1 1 1 none body 1 2 3 1 3 0 + 1 to 2 3 1 3 0 + 1\nend\n",
    ),
    // A value that stays is listed.
    (
        "TWICE_LISTED",
        "journal\nentry 0 0 0 0 0 none body 0 2 3 2 3 0 + to 2 3 2 3 0 +\n\
        entry 1 0 1 0 0 none body 0 2 3 2 3 0 + to 2 3 2 3 0 +\nend\n",
    ),
    // An amoebot contracts out of (3, 3).
    (
        "CONTRACTED",
        "journal\nentry 0 0 0 0 1 contract tail spot 3 3 0 to empty body 0 2 3 3 3 0 + to 2 3 2 3 0 +\nend\n",
    ),
    // The same, into which another amoebot comes at once.
    (
        "CONTRACTED_INTO",
        "journal\nentry 0 0 0 0 1 contract tail spot 3 3 0 to 1 body 0 2 3 3 3 0 + to 2 3 2 3 0 +\nend\n",
    ),
    // Seven amoebots in a hexagon: those round the middle erode one after the other,
    // and then the middle one leads.
    (
        "ERODED",
        "journal\nentry 0 0 0 1 1 none body 1 4 3 4 3 0 + 1 0 to 4 3 4 3 0 + 0 0\n\
        entry 1 0 1 2 1 none body 2 3 4 3 4 0 + 1 0 to 3 4 3 4 0 + 0 0\n\
        entry 2 0 2 3 1 none body 3 2 4 2 4 0 + 1 0 to 2 4 2 4 0 + 0 0\n\
        entry 3 0 3 4 1 none body 4 2 3 2 3 0 + 1 0 to 2 3 2 3 0 + 0 0\n\
        entry 4 0 4 5 1 none body 5 3 2 3 2 0 + 1 0 to 3 2 3 2 0 + 0 0\n\
        entry 5 0 5 6 1 none body 6 4 2 4 2 0 + 1 0 to 4 2 4 2 0 + 0 0\n\
        entry 6 0 6 0 0 none body 0 3 3 3 3 0 + 1 0 to 3 3 3 3 0 + 1 1\nend\n",
    ),
    // ---- the hexagon of seven
    ("AREA", "shape\narea 0 0 8 8\n"),
    ("MIDDLE", "bot 3 3 3 3 0 + 1 0\n"),
    // Ids 1 to 3, and 4 to 6, with `cand` 1.
    (
        "ONE_TO_THREE",
        "bot 4 3 4 3 0 + 1 0\nbot 3 4 3 4 0 + 1 0\nbot 2 4 2 4 0 + 1 0\n",
    ),
    (
        "FOUR_TO_SIX",
        "bot 2 3 2 3 0 + 1 0\nbot 3 2 3 2 0 + 1 0\nbot 4 2 4 2 0 + 1 0\n",
    ),
    // The same with `cand` 0.
    (
        "THREE_OFF",
        "bot 4 3 4 3 0 + 0 0\nbot 3 4 3 4 0 + 0 0\nbot 2 4 2 4 0 + 0 0\n",
    ),
    (
        "SIX_OFF",
        "bot 2 3 2 3 0 + 0 0\nbot 3 2 3 2 0 + 0 0\nbot 4 2 4 2 0 + 0 0\n",
    ),
    // Three amoebots that stand elsewhere at the start.
    (
        "ONE_TO_THREE_ELSEWHERE",
        "bot 0 0 0 0 3 - 0 1\nbot 1 0 1 0 0 + 1 1\nbot 7 7 7 7 0 + 0 0\n",
    ),
];

/// The document of the hexagon, whose shape does not matter.
/// Three amoebots stand elsewhere at the start.
const HEXAGON: &str = "{ERODE_3}{AREA}{MIDDLE}{THREE_OFF}{ONE_TO_THREE_ELSEWHERE}end\n{ERODED}\
    final\narea 0 0 8 8\nbot 3 3 3 3 0 + 1 1\n{THREE_OFF}{SIX_OFF}end\n";

/// The worked example, a pull with a note, and journals without an entry.
static REWOUND: [Rewinding; 13] = [
    (
        "0",
        "{OUT_RENEWED}{ONE}{EXPANDED_3}{EXPANDED_FINAL}",
        Done,
        "{ONE}",
    ),
    // The shape of the document does not matter, apart from its area,
    // its walls and the number of its amoebots.
    (
        "0",
        "{OUT_RENEWED}{ELSEWHERE}{EXPANDED_3}{EXPANDED_FINAL}",
        Done,
        "{ONE}",
    ),
    // The last place is that of the last shape.
    (
        "1",
        "{OUT_RENEWED}{ONE}{EXPANDED_3}{EXPANDED_FINAL}",
        Done,
        "{EXPANDED_SHAPE}",
    ),
    (
        "0000000001",
        "{OUT_RENEWED}{ELSEWHERE}{EXPANDED_3}{EXPANDED_FINAL}",
        Done,
        "{EXPANDED_SHAPE}",
    ),
    // The caller and the turn of an entry do not matter.
    (
        "0",
        "{OUT_RENEWED}{ONE}\
        journal\nentry 0 3 9 0 0 expand head 0 spot 3 3 empty to 0 \
        body 0 2 3 2 3 0 + to 3 3 2 3 0 +\nend\n{EXPANDED_FINAL}",
        Done,
        "{ONE}",
    ),
    // Lists, a schedule and turns do not, either.
    (
        "0",
        "{OUT_RENEWED}{ONE}\
        lists\nturns 1\nlist 0\nend\n\
        schedule\n0 times 3\nend\n{EXPANDED_3}{EXPANDED_FINAL}\
        turns\nturn 0 0 idle 0\nend\n",
        Done,
        "{ONE}",
    ),
    // The last shape is not what the entry leads to. At the last place that does not matter.
    (
        "0",
        "{OUT_RENEWED}{ONE}{EXPANDED_3}final\narea 0 0 8 8\nbot 3 3 3 3 0 +\nend\n",
        Differs(0),
        "differs 0\n",
    ),
    (
        "1",
        "{OUT_RENEWED}{ONE}{EXPANDED_3}final\narea 0 0 8 8\nbot 3 3 3 3 0 +\nend\n",
        Done,
        "shape\narea 0 0 8 8\nbot 3 3 3 3 0 +\nend\n",
    ),
    // A pull, and then a note.
    (
        "2",
        "{DRAG_3}{TRAILED_0}{DRAGGED_JOURNAL_3}{DRAGGED_FINAL}",
        Done,
        "{NOTED_SHAPE}",
    ),
    (
        "1",
        "{DRAG_3}{TRAILED_0}{DRAGGED_JOURNAL_3}{DRAGGED_FINAL}",
        Done,
        "{DRAGGED_SHAPE}",
    ),
    (
        "0",
        "{DRAG_3}{TRAILED_0}{DRAGGED_JOURNAL_3}{DRAGGED_FINAL}",
        Done,
        "{TRAILED_0}",
    ),
    // No entry.
    (
        "0",
        "{OUT_RENEWED}{ELSEWHERE}{NO_ENTRY}{STILL_FINAL}",
        Done,
        "{ONE}",
    ),
    // No amoebot.
    (
        "0",
        "{OUT_RENEWED}shape\narea 0 0 8 8\nend\n{NO_ENTRY}final\narea 0 0 8 8\nend\n",
        Done,
        "shape\narea 0 0 8 8\nend\n",
    ),
];

/// Entries that change nothing, walls, values at their maximum, entries that stand twice,
/// and a last shape that is none.
static BACK_BY_STEPS: [Rewinding; 16] = [
    // Entries that change nothing. A value that stays is none of a patch.
    (
        "0",
        "{STILL}{ONE}{TWICE_NOTHING}{STILL_FINAL}",
        Done,
        "{ONE}",
    ),
    (
        "1",
        "{STILL}{ONE}{TWICE_NOTHING}{STILL_FINAL}",
        Done,
        "{ONE}",
    ),
    (
        "2",
        "{STILL}{ONE}{TWICE_NOTHING}{STILL_FINAL}",
        Done,
        "{ONE}",
    ),
    (
        "0",
        "{STILL}{ONE}{TWICE_LISTED}{STILL_FINAL}",
        Differs(1),
        "differs 1\n",
    ),
    // The amoebot was on (3, 3), unless there is a wall or another amoebot.
    (
        "0",
        "{LINE}{CORNER}{CONTRACTED}{STILL_FINAL}",
        Done,
        "shape\narea 0 0 8 8\nbot 2 3 3 3 0 +\nend\n",
    ),
    (
        "0",
        "{LINE}\
        shape\narea 0 0 8 8\nwall 3 3\nbot 1 1 1 1 0 +\nend\n{CONTRACTED}\
        final\narea 0 0 8 8\nwall 3 3\nbot 2 3 2 3 0 +\nend\n",
        Differs(0),
        "differs 0\n",
    ),
    (
        "0",
        "{LINE}\
        shape\narea 0 0 8 8\nbot 1 1 1 1 0 +\nbot 3 3 3 3 0 +\nend\n{CONTRACTED_INTO}\
        final\narea 0 0 8 8\nbot 2 3 2 3 0 +\nbot 3 3 3 3 0 +\nend\n",
        Differs(0),
        "differs 0\n",
    ),
    // Walls are printed row by row.
    (
        "0",
        "{LINE}\
        shape\narea 0 0 8 8\nwall 5 5\nwall 6 2\nbot 1 1 1 1 0 +\nend\n{CONTRACTED}\
        final\narea 0 0 8 8\nwall 6 2\nwall 5 5\nbot 2 3 2 3 0 +\nend\n",
        Done,
        "shape\narea 0 0 8 8\nwall 6 2\nwall 5 5\nbot 2 3 3 3 0 +\nend\n",
    ),
    // A value was its maximum.
    // Above the maximum there is none, though the action would have changed it.
    (
        "0",
        "amoebot 3\nprogram\nvar m 2\naction a when true do m := 0\nend\n\
        shape\narea 0 0 8 8\nbot 2 3 2 3 0 + 1\nend\n\
        journal\nentry 0 0 0 0 0 none body 0 2 3 2 3 0 + 2 to 2 3 2 3 0 + 0\nend\n\
        final\narea 0 0 8 8\nbot 2 3 2 3 0 + 0\nend\n",
        Done,
        "shape\narea 0 0 8 8\nbot 2 3 2 3 0 + 2\nend\n",
    ),
    (
        "0",
        "amoebot 3\nprogram\nvar m 1\naction a when true do m := 0\nend\n\
        shape\narea 0 0 8 8\nbot 2 3 2 3 0 + 1\nend\n\
        journal\nentry 0 0 0 0 0 none body 0 2 3 2 3 0 + 2 to 2 3 2 3 0 + 0\nend\n\
        final\narea 0 0 8 8\nbot 2 3 2 3 0 + 0\nend\n",
        Differs(0),
        "differs 0\n",
    ),
    (
        "0",
        "amoebot 3\nprogram\nvar m 1\naction out when contracted move expand head 0\nend\n\
        shape\narea 0 0 8 8\nbot 2 3 2 3 0 + 0\nend\n\
        journal\nentry 0 0 0 0 0 expand head 0 spot 3 3 empty to 0 \
        body 0 2 3 2 3 0 + 2 to 3 3 2 3 0 + 0\nend\n\
        final\narea 0 0 8 8\nbot 3 3 2 3 0 + 0\nend\n",
        Differs(0),
        "differs 0\n",
    ),
    // The same entry twice: seen from the last shape the second one is a step,
    // and the first one is none.
    (
        "0",
        "{OUT_RENEWED}{ONE}{EXPANDED_TWICE}{EXPANDED_FINAL}",
        Differs(0),
        "differs 0\n",
    ),
    (
        "1",
        "{OUT_RENEWED}{ONE}{EXPANDED_TWICE}{EXPANDED_FINAL}",
        Done,
        "{ONE}",
    ),
    (
        "2",
        "{OUT_RENEWED}{ONE}{EXPANDED_TWICE}{EXPANDED_FINAL}",
        Done,
        "{EXPANDED_SHAPE}",
    ),
    // From a shape on which nobody is expanded nothing leads back.
    (
        "0",
        "{OUT_RENEWED}{ONE}{EXPANDED_3}{STILL_FINAL}",
        Differs(0),
        "differs 0\n",
    ),
    (
        "1",
        "{OUT_RENEWED}{ONE}{EXPANDED_3}{STILL_FINAL}",
        Done,
        "{ONE}",
    ),
];

/// The answer is the greatest place from which there is no step,
/// if it is not below the place that is asked for.
static FAULTY: [Rewinding; 8] = [
    (
        "0",
        "{DRAG_3}{TRAILED_0}{NOTED_BEFORE}{DRAGGED_FINAL}",
        Differs(1),
        "differs 1\n",
    ),
    (
        "1",
        "{DRAG_3}{TRAILED_0}{NOTED_BEFORE}{DRAGGED_FINAL}",
        Differs(1),
        "differs 1\n",
    ),
    (
        "2",
        "{DRAG_3}{TRAILED_0}{NOTED_BEFORE}{DRAGGED_FINAL}",
        Done,
        "{NOTED_SHAPE}",
    ),
    (
        "0",
        "{DRAG_3}{TRAILED_0}{PULLED_BY_NOTE}{DRAGGED_FINAL}",
        Differs(0),
        "differs 0\n",
    ),
    (
        "1",
        "{DRAG_3}{TRAILED_0}{PULLED_BY_NOTE}{DRAGGED_FINAL}",
        Done,
        "{DRAGGED_SHAPE}",
    ),
    (
        "0",
        "{DRAG_3}{TRAILED_0}{BOTH_WRONG}{DRAGGED_FINAL}",
        Differs(1),
        "differs 1\n",
    ),
    (
        "1",
        "{DRAG_3}{TRAILED_0}{BOTH_WRONG}{DRAGGED_FINAL}",
        Differs(1),
        "differs 1\n",
    ),
    (
        "2",
        "{DRAG_3}{TRAILED_0}{BOTH_WRONG}{DRAGGED_FINAL}",
        Done,
        "{NOTED_SHAPE}",
    ),
];

/// Each place of the hexagon.
static ERODING: [Rewinding; 8] = [
    (
        "0",
        HEXAGON,
        Done,
        "{AREA}{MIDDLE}{ONE_TO_THREE}{FOUR_TO_SIX}end\n",
    ),
    (
        "1",
        HEXAGON,
        Done,
        "{AREA}{MIDDLE}bot 4 3 4 3 0 + 0 0\nbot 3 4 3 4 0 + 1 0\nbot 2 4 2 4 0 + 1 0\n{FOUR_TO_SIX}end\n",
    ),
    (
        "2",
        HEXAGON,
        Done,
        "{AREA}{MIDDLE}bot 4 3 4 3 0 + 0 0\nbot 3 4 3 4 0 + 0 0\nbot 2 4 2 4 0 + 1 0\n{FOUR_TO_SIX}end\n",
    ),
    (
        "3",
        HEXAGON,
        Done,
        "{AREA}{MIDDLE}{THREE_OFF}{FOUR_TO_SIX}end\n",
    ),
    (
        "4",
        HEXAGON,
        Done,
        "{AREA}{MIDDLE}{THREE_OFF}bot 2 3 2 3 0 + 0 0\nbot 3 2 3 2 0 + 1 0\nbot 4 2 4 2 0 + 1 0\nend\n",
    ),
    (
        "5",
        HEXAGON,
        Done,
        "{AREA}{MIDDLE}{THREE_OFF}bot 2 3 2 3 0 + 0 0\nbot 3 2 3 2 0 + 0 0\nbot 4 2 4 2 0 + 1 0\nend\n",
    ),
    (
        "6",
        HEXAGON,
        Done,
        "{AREA}{MIDDLE}{THREE_OFF}{SIX_OFF}end\n",
    ),
    (
        "7",
        HEXAGON,
        Done,
        "{AREA}bot 3 3 3 3 0 + 1 1\n{THREE_OFF}{SIX_OFF}end\n",
    ),
];

/// The text of a template, in which pieces of this file may stand.
fn spelled_here(alloc: Global, template: &str) -> Result<String, Fail> {
    spelled_with(alloc, template, &PIECES)
}

/// `rewind` to each place says what its row says.
fn check_rewindings<R: Threads + Wait + Sync>(
    rt: &R,
    alloc: Global,
    rows: &[Rewinding],
) -> Result<(), Fail> {
    for (place, template, status, text) in rows {
        let document = spelled_here(alloc, template)?;
        let text = spelled_here(alloc, text)?;
        check(
            rt,
            alloc,
            &["rewind", place],
            document.as_bytes(),
            *status,
            None,
            text.as_str(),
        )?;
    }
    Ok(())
}

/// `rewind` refuses each document as its row says.
fn check_refused<R: Threads + Wait + Sync>(
    rt: &R,
    alloc: Global,
    rows: &[Refused],
) -> Result<(), Fail> {
    for (place, template, line, kind, text) in rows {
        let document = spelled(alloc, template)?;
        let status = Status::Refused(Refusal {
            line: *line,
            kind: *kind,
        });
        check(
            rt,
            alloc,
            &["rewind", place],
            document.as_bytes(),
            status,
            None,
            text,
        )?;
    }
    Ok(())
}

#[test]
fn a_journal_leads_back_to_the_shape_at_a_place(rt: HostRuntime) -> Result<(), Fail> {
    check_rewindings(&rt, rt.alloc(), &REWOUND)
}

#[test]
fn steps_lead_back_to_what_was_there_and_may_be_there(rt: HostRuntime) -> Result<(), Fail> {
    check_rewindings(&rt, rt.alloc(), &BACK_BY_STEPS)
}

#[test]
fn an_eroded_hexagon_leads_back_to_each_place(rt: HostRuntime) -> Result<(), Fail> {
    check_rewindings(&rt, rt.alloc(), &ERODING)
}

#[test]
fn the_greatest_place_without_a_step_back_is_told(rt: HostRuntime) -> Result<(), Fail> {
    check_rewindings(&rt, rt.alloc(), &FAULTY)
}

#[test]
fn a_last_shape_in_another_frame_differs_behind_the_journal(rt: HostRuntime) -> Result<(), Fail> {
    check_rewindings(&rt, rt.alloc(), &OTHER_FRAMES)
}

#[test]
fn old_values_that_were_tampered_with_lead_nowhere(rt: HostRuntime) -> Result<(), Fail> {
    let alloc = rt.alloc();
    let shape = spelled_here(alloc, "{EXPANDED_SHAPE}")?;
    for entry in &TAMPERED {
        let mut document = spelled(alloc, "{OUT_RENEWED}{ONE}journal\n")?;
        document.push_str(entry)?;
        document.push_str(spelled(alloc, "end\n{EXPANDED_FINAL}")?.as_str())?;
        let bytes = document.as_bytes();
        check(
            &rt,
            alloc,
            &["rewind", "0"],
            bytes,
            Differs(0),
            None,
            "differs 0\n",
        )?;
        check(
            &rt,
            alloc,
            &["rewind", "1"],
            bytes,
            Done,
            None,
            shape.as_str(),
        )?;
    }
    Ok(())
}

/// The second section of a document, each of whose sections ends with a line `end`.
fn shape_in(alloc: Global, document: &str) -> Result<String, Fail> {
    let (_, behind) = document.split_once("\nend\n").ok_or("no program")?;
    let (shape, _) = behind.split_once("\nend\n").ok_or("no shape")?;
    Ok(format!(in alloc; "{shape}\nend\n")?)
}

/// Each document that was renewed leads back to the shape that it was written with.
#[test]
fn a_renewed_journal_leads_back_to_its_first_shape(rt: HostRuntime) -> Result<(), Fail> {
    let alloc = rt.alloc();
    for (_, _, text) in &RENEWALS {
        let document = spelled(alloc, text)?;
        let shape = shape_in(alloc, document.as_str())?;
        check(
            &rt,
            alloc,
            &["rewind", "0"],
            document.as_bytes(),
            Done,
            None,
            shape.as_str(),
        )?;
    }
    Ok(())
}

#[test]
fn versions_places_and_documents_are_refused_in_this_order(rt: HostRuntime) -> Result<(), Fail> {
    check_refused(&rt, rt.alloc(), &REFUSED)
}

#[test]
fn rewind_takes_one_number(rt: HostRuntime) -> Result<(), Fail> {
    for line in NO_REWINDS.lines() {
        let words = words_of(rt.alloc(), line)?;
        check(
            &rt,
            rt.alloc(),
            words.as_slice(),
            b"",
            Status::Words,
            None,
            USAGE,
        )?;
    }
    Ok(())
}
