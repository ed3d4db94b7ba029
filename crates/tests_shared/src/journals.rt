//! Journals, and rows of the commands that explain them: documents that are renewed, gone back
//! along, whose rounds are counted, and elections.

use crate::pieces::Row;
use amoebot_run::Status::{Differs, Done};

/// The worked example is renewed, and so is what comes of that.
pub static RENEWED: [Row; 2] = [
    (
        "renew",
        "{OUT}{ONE}{TWO_TURNS}{EXPANDED}{EXPANDED_FINAL}{WORKED_TURNS}",
        Done,
        None,
        "{OUT_RENEWED}{ONE}{EXPANDED_3}{EXPANDED_FINAL}",
    ),
    (
        "renew",
        "{OUT_RENEWED}{ONE}{EXPANDED_3}{EXPANDED_FINAL}",
        Done,
        None,
        "{OUT_RENEWED}{ONE}{EXPANDED_3}{EXPANDED_FINAL}",
    ),
];

/// Journals that differ, which are not renewed.
pub static DIFFERENT: [Row; 4] = [
    // An old value is another one.
    (
        "renew",
        "{OUT_RENEWED}{ONE}\
        journal\nentry 0 0 0 0 0 expand head 0 spot 3 3 empty to 0 \
        body 0 2 3 2 3 1 + to 3 3 2 3 0 +\nend\n{EXPANDED_FINAL}",
        Differs(0),
        None,
        "differs 0\n",
    ),
    // Each entry is a step, and the last shape is that of the start.
    (
        "renew",
        "{OUT}{ONE}{EXPANDED}final\narea 0 0 8 8\nbot 2 3 2 3 0 +\nend\n",
        Differs(1),
        None,
        "differs 1\n",
    ),
    // The last shape lacks a wall.
    (
        "renew",
        "{OUT_3}\
        shape\narea 0 0 8 8\nwall 5 5\nbot 2 3 2 3 0 +\nend\n{EXPANDED_3}{EXPANDED_FINAL}",
        Differs(1),
        None,
        "differs 1\n",
    ),
    // The two entries, the other way round.
    (
        "renew",
        "{DRAG}{TRAILED_0}{DRAGGED_EXCHANGED}{DRAGGED_FINAL}",
        Differs(0),
        None,
        "differs 0\n",
    ),
];

/// The words that go back to the start of a journal.
pub const TO_START: &[&str] = &["rewind", "0"];

/// The worked example in version 3, which is gone back along to its start,
/// and the same with another old value.
pub static REWOUND: [Row; 2] = [
    (
        "rewind",
        "{OUT_3}{ONE}{EXPANDED_3}{EXPANDED_FINAL}",
        Done,
        None,
        "{ONE}",
    ),
    // With this rotation it would have gone elsewhere, and would have kept it.
    (
        "rewind",
        "{OUT_3}{ONE}\
        journal\nentry 0 0 0 0 0 expand head 0 spot 3 3 empty to 0 \
        body 0 2 3 2 3 1 + to 3 3 2 3 0 +\nend\n{EXPANDED_FINAL}",
        Differs(0),
        None,
        "differs 0\n",
    ),
];

/// A journal whose rounds are counted, and some that differ.
pub static COUNTED: [Row; 4] = [
    (
        "rounds",
        "{DRAG}{TRAILED_0}{DRAGGED_JOURNAL}{DRAGGED_FINAL}",
        Done,
        None,
        "rounds 2\nwaiting 1\n",
    ),
    // The last shape is that of the start.
    (
        "rounds",
        "{OUT}{ONE}{EXPANDED}final\narea 0 0 8 8\nbot 2 3 2 3 0 +\nend\n",
        Differs(1),
        None,
        "differs 1\n",
    ),
    // The two entries, the other way round.
    (
        "rounds",
        "{DRAG}{TRAILED_0}{DRAGGED_EXCHANGED}{DRAGGED_FINAL}",
        Differs(0),
        None,
        "differs 0\n",
    ),
    // In version 3 an old value is another one.
    (
        "rounds",
        "{OUT_3}{ONE}\
        journal\nentry 0 0 0 0 0 expand head 0 spot 3 3 empty to 0 body 0 2 3 2 3 1 + to 3 3 2 3 0 +\nend\n\
        final\narea 0 0 8 8\nbot 3 3 2 3 0 +\nend\n",
        Differs(0),
        None,
        "differs 0\n",
    ),
];

/// One journal in version 3, and the same with another old value.
pub static ELECTIONS: [Row; 2] = [
    (
        "elect",
        "amoebot 3\n{EROSION}{TWO_CANDIDATES}\
        journal\nentry 0 0 0 0 1 none body 0 2 3 2 3 0 + 1 0 to 2 3 2 3 0 + 0 0\n\
        entry 1 0 1 1 0 none body 1 3 3 3 3 0 + 1 0 to 3 3 3 3 0 + 1 1\nend\n\
        final\narea 0 0 8 8\nbot 2 3 2 3 0 + 0 0\nbot 3 3 3 3 0 + 1 1\nend\n",
        Done,
        None,
        "candidates 1\nleader 1\n",
    ),
    (
        "elect",
        "amoebot 3\n{EROSION}{TWO_CANDIDATES}\
        journal\nentry 0 0 0 0 1 none body 0 2 3 2 3 0 + 1 0 to 2 3 2 3 0 + 0 0\n\
        entry 1 0 1 1 0 none body 1 3 3 3 3 0 + 0 0 to 3 3 3 3 0 + 1 1\nend\n\
        final\narea 0 0 8 8\nbot 2 3 2 3 0 + 0 0\nbot 3 3 3 3 0 + 1 1\nend\n",
        Differs(1),
        None,
        "differs 1\n",
    ),
];
