//! Documents that break off, or break a rule.

use tests_shared::pieces::Fault;
use text_tokens::RefusalKind::{
    BadId, NotAdjacent, OutOfBox, Overlap, Trailing, Truncated, Unexpected,
};

/// Documents that break off, or break a rule.
pub static FAULTS: [Fault; 8] = [
    (
        "run",
        "{OUT}shape\narea 0 0 8 8\nbot 2 3",
        7,
        Truncated,
        "refused 7 Truncated\n",
    ),
    ("interleave", "", 1, Truncated, "refused 1 Truncated\n"),
    (
        "check",
        "amoebot 1 program\nvar m 1\naction a when true move none do m := 0\nend\n",
        3,
        Unexpected,
        "refused 3 Unexpected\n",
    ),
    (
        "run",
        "{OUT}shape\narea 0 0 8 8\nbot 9 3 9 3 0 +\nend\n{TWO_TURNS}",
        7,
        OutOfBox,
        "refused 7 OutOfBox\n",
    ),
    (
        "run",
        "{OUT}shape\narea 0 0 8 8\nbot 2 3 4 3 0 +\nend\n{TWO_TURNS}",
        7,
        NotAdjacent,
        "refused 7 NotAdjacent\n",
    ),
    (
        "run",
        "{OUT}shape\narea 0 0 8 8\nbot 2 3 2 3 0 +\nbot 2 3 2 3 0 +\nend\n{TWO_TURNS}",
        8,
        Overlap,
        "refused 8 Overlap\n",
    ),
    (
        "run",
        "{OUT}{ONE}lists\nturns 2\nlist 1\nend\n",
        11,
        BadId,
        "refused 11 BadId\n",
    ),
    (
        "run",
        "{OUT}{ONE}{TWO_TURNS}more\n",
        13,
        Trailing,
        "refused 13 Trailing\n",
    ),
];
