//! Documents that are to be of a least version or a later one: what they have,
//! or their first fault.

use crate::pieces::Expected;
use shape_files::Form;
use shape_files::Form::{Check, Interleave, Measure, Replay, Run};
use text_tokens::RefusalKind::{
    BadByte, BadEntry, BadRange, OutOfBox, Trailing, Truncated, Unexpected, WordTooLong,
    WrongSection,
};

/// The least version that a document may be of, its form, the template of the document,
/// and what is said of it.
pub type LeastRow = (u8, Form, &'static str, Expected);

/// Documents without a fault but their version, and such with further ones behind it.
pub static LEAST_VERSIONS: [LeastRow; 45] = [
    (
        3,
        Replay,
        "{HEAD_3}{PROGRAM}{SHAPE}{JOURNAL}{FINAL}",
        Ok([1, 1, -1, -1, 0, 1]),
    ),
    (
        3,
        Replay,
        "{HEAD}{PROGRAM}{SHAPE}{JOURNAL}{FINAL}",
        Err((1, BadRange)),
    ),
    (
        3,
        Replay,
        "{HEAD_2}{PROGRAM}{SHAPE}{JOURNAL}{FINAL}",
        Err((1, BadRange)),
    ),
    (
        3,
        Replay,
        "amoebot 4\n{PROGRAM}{SHAPE}{JOURNAL}{FINAL}",
        Err((1, BadRange)),
    ),
    // Each form.
    (
        3,
        Run,
        "{HEAD_3}{PROGRAM}{SHAPE}{LISTS}",
        Ok([1, 1, 1, -1, -1, -1]),
    ),
    (
        3,
        Interleave,
        "{HEAD_3}{PROGRAM}{SHAPE}{LISTS}{SCHEDULE}",
        Ok([1, 1, 1, 3, -1, -1]),
    ),
    (3, Check, "{HEAD_3}{PROGRAM}", Ok([1, -1, -1, -1, -1, -1])),
    (
        3,
        Measure,
        "{HEAD_3}{PROGRAM}{SHAPE}",
        Ok([1, 1, -1, -1, -1, -1]),
    ),
    (3, Run, "{HEAD}{PROGRAM}{SHAPE}{LISTS}", Err((1, BadRange))),
    (
        3,
        Interleave,
        "{HEAD_2}{PROGRAM}{SHAPE}{LISTS}{SCHEDULE}",
        Err((1, BadRange)),
    ),
    (3, Check, "{HEAD}{PROGRAM}", Err((1, BadRange))),
    (3, Measure, "{HEAD_2}{PROGRAM}{SHAPE}", Err((1, BadRange))),
    // The number is refused where it stands, however it is written.
    (3, Check, "amoebot\n2\n{PROGRAM}", Err((2, BadRange))),
    (3, Check, "# c\namoebot\n\n1\n{PROGRAM}", Err((4, BadRange))),
    (3, Check, "amoebot 02\n{PROGRAM}", Err((1, BadRange))),
    (3, Check, "amoebot 000000002\n{PROGRAM}", Err((1, BadRange))),
    (3, Check, "amoebot 0\n{PROGRAM}", Err((1, BadRange))),
    (3, Check, "amoebot 999999999\n{PROGRAM}", Err((1, BadRange))),
    (
        3,
        Check,
        "amoebot\n3\n{PROGRAM}",
        Ok([1, -1, -1, -1, -1, -1]),
    ),
    (
        3,
        Check,
        "amoebot 000000003\n{PROGRAM}",
        Ok([1, -1, -1, -1, -1, -1]),
    ),
    // Faults behind the number come later.
    (3, Replay, "{HEAD}more\n", Err((1, BadRange))),
    (3, Replay, "{HEAD_2}more\n", Err((1, BadRange))),
    (3, Replay, "amoebot 4\nmore\n", Err((1, BadRange))),
    (3, Replay, "amoebot\n2\nmore\n", Err((2, BadRange))),
    (3, Replay, "amoebot\n2 $\n", Err((2, BadRange))),
    (3, Replay, "amoebot 1 0000000000\n", Err((1, BadRange))),
    (3, Replay, "amoebot 1", Err((1, BadRange))),
    (3, Replay, "{HEAD_2}final\n", Err((1, BadRange))),
    (
        3,
        Replay,
        "{HEAD}{PROGRAM}{SHAPE}{JOURNAL}{FINAL}more\n",
        Err((1, BadRange)),
    ),
    (
        3,
        Replay,
        "{HEAD_2}{PROGRAM}shape\narea 0 0 8 8\nbot 9 9 9 9 0 +\nend\n",
        Err((1, BadRange)),
    ),
    // Faults before the number, and in place of it, come first.
    (3, Replay, "", Err((1, Truncated))),
    (3, Replay, "amoebot\n", Err((2, Truncated))),
    (3, Replay, "2 amoebot\n", Err((1, Unexpected))),
    (3, Replay, "amoebot two\n", Err((1, Unexpected))),
    (3, Replay, "amoebot -2\n", Err((1, Unexpected))),
    (3, Replay, "amoebot 0000000002\n", Err((1, WordTooLong))),
    (3, Replay, "$ amoebot 2\n", Err((1, BadByte))),
    // Faults of a document of that version are the same.
    (3, Replay, "{HEAD_3}more\n", Err((2, Unexpected))),
    (3, Replay, "{HEAD_3}final\n", Err((2, WrongSection))),
    (
        3,
        Replay,
        "{HEAD_3}{PROGRAM}{SHAPE}{JOURNAL}{FINAL}more\n",
        Err((15, Trailing)),
    ),
    (
        3,
        Replay,
        "{HEAD_3}{PROGRAM}shape\narea 0 0 8 8\nbot 9 9 9 9 0 +\nend\n",
        Err((7, OutOfBox)),
    ),
    (
        3,
        Replay,
        "{HEAD_3}{PROGRAM}{SHAPE}journal\nentry 0 16 0 0 0 none\nend\n{FINAL}",
        Err((10, BadEntry)),
    ),
    // Another least version.
    (2, Check, "{HEAD}{PROGRAM}", Err((1, BadRange))),
    (2, Check, "{HEAD_2}{PROGRAM}", Ok([1, -1, -1, -1, -1, -1])),
    (1, Check, "{HEAD}{PROGRAM}", Ok([1, -1, -1, -1, -1, -1])),
];
