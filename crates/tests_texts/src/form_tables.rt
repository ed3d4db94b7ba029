//! Sections of each form, in their order and out of it.

use crate::pieces::Row;
use shape_files::Form::{Check, Interleave, Measure, Replay, Run};
use text_tokens::RefusalKind::{
    BadByte, Trailing, Truncated, Unexpected, WordTooLong, WrongSection,
};

/// Sections of the form Run, in their order and out of it.
pub static RUN_FORMS: [Row; 39] = [
    (
        Run,
        "{HEAD}{PROGRAM}{SHAPE}{LISTS}",
        Ok([1, 1, 1, -1, -1, -1]),
    ),
    (
        Run,
        "{HEAD}{PROGRAM}{SHAPE}{LISTS}{SCHEDULE}",
        Ok([1, 1, 1, 3, -1, -1]),
    ),
    (Run, "{HEAD}{PROGRAM}{SHAPE}", Err((9, Truncated))),
    (Run, "{HEAD}{PROGRAM}", Err((5, Truncated))),
    (Run, "{HEAD}", Err((2, Truncated))),
    (Run, "", Err((1, Truncated))),
    (
        Run,
        "{HEAD}{PROGRAM}{SHAPE}{LISTS}{JOURNAL}",
        Err((13, Trailing)),
    ),
    (
        Run,
        "{HEAD}{PROGRAM}{SHAPE}{LISTS}{SCHEDULE}{SCHEDULE}",
        Err((16, Trailing)),
    ),
    (
        Run,
        "{HEAD}{PROGRAM}{SHAPE}{LISTS}{LISTS}",
        Err((13, Trailing)),
    ),
    (
        Run,
        "{HEAD}{PROGRAM}{SHAPE}{LISTS}{HEAD}",
        Err((13, Trailing)),
    ),
    (
        Run,
        "{HEAD}{PROGRAM}{SHAPE}{LISTS}{TURNS}",
        Err((13, Trailing)),
    ),
    (
        Run,
        "{HEAD}{PROGRAM}{SHAPE}{LISTS}{FINAL}",
        Err((13, Trailing)),
    ),
    (
        Run,
        "{HEAD}{PROGRAM}{SHAPE}{LISTS}{SCHEDULE}{JOURNAL}",
        Err((16, Trailing)),
    ),
    (
        Run,
        "{HEAD}{PROGRAM}{SHAPE}{LISTS}more\n",
        Err((13, Trailing)),
    ),
    (
        Run,
        "{HEAD}{PROGRAM}{SHAPE}{LISTS}{SCHEDULE}\n3",
        Err((17, Trailing)),
    ),
    (
        Run,
        "{HEAD}{PROGRAM}{SHAPE}{SCHEDULE}",
        Err((9, WrongSection)),
    ),
    (Run, "{HEAD}{PROGRAM}{SHAPE}{SHAPE}", Err((9, WrongSection))),
    (
        Run,
        "{HEAD}{PROGRAM}{SHAPE}{JOURNAL}",
        Err((9, WrongSection)),
    ),
    (Run, "{HEAD}{PROGRAM}{SHAPE}{FINAL}", Err((9, WrongSection))),
    (Run, "{HEAD}{PROGRAM}{SHAPE}{TURNS}", Err((9, WrongSection))),
    (Run, "{HEAD}{PROGRAM}{SHAPE}{HEAD}", Err((9, WrongSection))),
    (Run, "{HEAD}{SHAPE}", Err((2, WrongSection))),
    (Run, "{HEAD}{PROGRAM}{LISTS}", Err((5, WrongSection))),
    (Run, "{HEAD}{PROGRAM}{PROGRAM}", Err((5, WrongSection))),
    (Run, "{HEAD}{HEAD}", Err((2, WrongSection))),
    (Run, "{PROGRAM}", Err((1, Unexpected))),
    (Run, "{HEAD}{PROGRAM}{SHAPE}more\n", Err((9, Unexpected))),
    (Run, "{HEAD}3\n", Err((2, Unexpected))),
    (Run, "{HEAD}{PROGRAM}end\n", Err((5, Unexpected))),
    (
        Run,
        "{HEAD}{PROGRAM}{SHAPE}{LISTS}\n# end",
        Ok([1, 1, 1, -1, -1, -1]),
    ),
    (Run, "{HEAD}{PROGRAM}{SHAPE}{LISTS}$\n", Err((13, BadByte))),
    (
        Run,
        "{HEAD}{PROGRAM}{SHAPE}{LISTS}{SCHEDULE}$",
        Err((16, BadByte)),
    ),
    (Run, "{HEAD}{PROGRAM}{SHAPE}$", Err((9, BadByte))),
    (Run, "{HEAD}{PROGRAM}$", Err((5, BadByte))),
    (Run, "{HEAD}$", Err((2, BadByte))),
    (Run, "$", Err((1, BadByte))),
    (
        Run,
        "{HEAD}{PROGRAM}{SHAPE}{LISTS}abcdefghijklmnopqrstuvwxy",
        Err((13, WordTooLong)),
    ),
    (
        Run,
        "{HEAD}{PROGRAM}{SHAPE}{LISTS}1234567890",
        Err((13, WordTooLong)),
    ),
    (
        Run,
        "{HEAD}{PROGRAM}{SHAPE}abcdefghijklmnopqrstuvwxy",
        Err((9, WordTooLong)),
    ),
];

/// Those of the forms Interleave, Check and Measure.
pub static OTHER_FORMS: [Row; 36] = [
    (
        Interleave,
        "{HEAD}{PROGRAM}{SHAPE}{LISTS}{SCHEDULE}",
        Ok([1, 1, 1, 3, -1, -1]),
    ),
    (
        Interleave,
        "{HEAD}{PROGRAM}{SHAPE}{LISTS}",
        Err((13, Truncated)),
    ),
    (
        Interleave,
        "{HEAD}{PROGRAM}{SHAPE}{LISTS}{JOURNAL}",
        Err((13, WrongSection)),
    ),
    (
        Interleave,
        "{HEAD}{PROGRAM}{SHAPE}{LISTS}{LISTS}",
        Err((13, WrongSection)),
    ),
    (
        Interleave,
        "{HEAD}{PROGRAM}{SHAPE}{LISTS}{SCHEDULE}{JOURNAL}",
        Err((16, Trailing)),
    ),
    (
        Interleave,
        "{HEAD}{PROGRAM}{SHAPE}{LISTS}more",
        Err((13, Unexpected)),
    ),
    (
        Interleave,
        "{HEAD}{PROGRAM}{SHAPE}{LISTS}$",
        Err((13, BadByte)),
    ),
    (
        Interleave,
        "{HEAD}{PROGRAM}{SHAPE}{SCHEDULE}",
        Err((9, WrongSection)),
    ),
    (Check, "{HEAD}{PROGRAM}", Ok([1, -1, -1, -1, -1, -1])),
    (Check, "{HEAD}{PROGRAM}{SHAPE}", Ok([1, 1, -1, -1, -1, -1])),
    (
        Check,
        "{HEAD}{PROGRAM}{SHAPE}{LISTS}",
        Ok([1, 1, 1, -1, -1, -1]),
    ),
    (
        Check,
        "{HEAD}{PROGRAM}{SHAPE}{LISTS}{SCHEDULE}",
        Ok([1, 1, 1, 3, -1, -1]),
    ),
    (Check, "{HEAD}", Err((2, Truncated))),
    (Check, "{HEAD}{SHAPE}", Err((2, WrongSection))),
    (Check, "{HEAD}{PROGRAM}{LISTS}", Err((5, Trailing))),
    (Check, "{HEAD}{PROGRAM}{PROGRAM}", Err((5, Trailing))),
    (Check, "{HEAD}{PROGRAM}{HEAD}", Err((5, Trailing))),
    (
        Check,
        "{HEAD}{PROGRAM}{SHAPE}{SCHEDULE}",
        Err((9, Trailing)),
    ),
    (Check, "{HEAD}{PROGRAM}{SHAPE}{JOURNAL}", Err((9, Trailing))),
    (
        Check,
        "{HEAD}{PROGRAM}{SHAPE}{LISTS}{JOURNAL}",
        Err((13, Trailing)),
    ),
    (Check, "{HEAD}{PROGRAM}more", Err((5, Trailing))),
    (Check, "{HEAD}{PROGRAM}$", Err((5, BadByte))),
    (
        Measure,
        "{HEAD}{PROGRAM}{SHAPE}",
        Ok([1, 1, -1, -1, -1, -1]),
    ),
    (
        Measure,
        "{HEAD}{PROGRAM}{SHAPE}{LISTS}",
        Ok([1, 1, 1, -1, -1, -1]),
    ),
    (
        Measure,
        "{HEAD}{PROGRAM}{SHAPE}{LISTS}{SCHEDULE}",
        Ok([1, 1, 1, 3, -1, -1]),
    ),
    (
        Measure,
        "{HEAD}{PROGRAM}{SHAPE}{JOURNAL}{FINAL}",
        Ok([1, 1, -1, -1, 0, 1]),
    ),
    (
        Measure,
        "{HEAD}{PROGRAM}{SHAPE}{LISTS}{SCHEDULE}{JOURNAL}{FINAL}{TURNS}",
        Ok([1, 1, 1, 3, 0, 1]),
    ),
    (Measure, "{HEAD}{PROGRAM}", Err((5, Truncated))),
    (
        Measure,
        "{HEAD}{PROGRAM}{SHAPE}{JOURNAL}",
        Err((11, Truncated)),
    ),
    (Measure, "{HEAD}{PROGRAM}{SHAPE}{FINAL}", Err((9, Trailing))),
    (
        Measure,
        "{HEAD}{PROGRAM}{SHAPE}{SCHEDULE}",
        Err((9, Trailing)),
    ),
    (Measure, "{HEAD}{PROGRAM}{SHAPE}{TURNS}", Err((9, Trailing))),
    (
        Measure,
        "{HEAD}{PROGRAM}{SHAPE}{JOURNAL}{TURNS}",
        Err((11, WrongSection)),
    ),
    (
        Measure,
        "{HEAD}{PROGRAM}{SHAPE}{JOURNAL}more",
        Err((11, Unexpected)),
    ),
    (
        Measure,
        "{HEAD}{PROGRAM}{SHAPE}{LISTS}{SCHEDULE}{FINAL}",
        Err((16, Trailing)),
    ),
    (Measure, "{HEAD}{PROGRAM}{JOURNAL}", Err((5, WrongSection))),
];

/// Those of the form Replay.
pub static REPLAY_FORMS: [Row; 28] = [
    (
        Replay,
        "{HEAD}{PROGRAM}{SHAPE}{JOURNAL}{FINAL}",
        Ok([1, 1, -1, -1, 0, 1]),
    ),
    (
        Replay,
        "{HEAD}{PROGRAM}{SHAPE}{JOURNAL}{FINAL}{TURNS}",
        Ok([1, 1, -1, -1, 0, 1]),
    ),
    (
        Replay,
        "{HEAD}{PROGRAM}{SHAPE}{LISTS}{JOURNAL}{FINAL}",
        Ok([1, 1, 1, -1, 0, 1]),
    ),
    (
        Replay,
        "{HEAD}{PROGRAM}{SHAPE}{LISTS}{JOURNAL}{FINAL}{TURNS}",
        Ok([1, 1, 1, -1, 0, 1]),
    ),
    (
        Replay,
        "{HEAD}{PROGRAM}{SHAPE}{LISTS}{SCHEDULE}{JOURNAL}{FINAL}",
        Ok([1, 1, 1, 3, 0, 1]),
    ),
    (
        Replay,
        "{HEAD}{PROGRAM}{SHAPE}{LISTS}{SCHEDULE}{JOURNAL}{FINAL}{TURNS}",
        Ok([1, 1, 1, 3, 0, 1]),
    ),
    (Replay, "{HEAD}{PROGRAM}{SHAPE}", Err((9, Truncated))),
    (
        Replay,
        "{HEAD}{PROGRAM}{SHAPE}{LISTS}",
        Err((13, Truncated)),
    ),
    (
        Replay,
        "{HEAD}{PROGRAM}{SHAPE}{LISTS}{SCHEDULE}",
        Err((16, Truncated)),
    ),
    (
        Replay,
        "{HEAD}{PROGRAM}{SHAPE}{JOURNAL}",
        Err((11, Truncated)),
    ),
    (
        Replay,
        "{HEAD}{PROGRAM}{SHAPE}{SCHEDULE}{JOURNAL}{FINAL}",
        Err((9, WrongSection)),
    ),
    (
        Replay,
        "{HEAD}{PROGRAM}{SHAPE}{FINAL}",
        Err((9, WrongSection)),
    ),
    (
        Replay,
        "{HEAD}{PROGRAM}{SHAPE}{TURNS}",
        Err((9, WrongSection)),
    ),
    (
        Replay,
        "{HEAD}{PROGRAM}{SHAPE}{JOURNAL}{TURNS}",
        Err((11, WrongSection)),
    ),
    (
        Replay,
        "{HEAD}{PROGRAM}{SHAPE}{JOURNAL}{JOURNAL}",
        Err((11, WrongSection)),
    ),
    (
        Replay,
        "{HEAD}{PROGRAM}{SHAPE}{JOURNAL}{LISTS}",
        Err((11, WrongSection)),
    ),
    (Replay, "{HEAD}{PROGRAM}{JOURNAL}", Err((5, WrongSection))),
    (
        Replay,
        "{HEAD}{PROGRAM}{SHAPE}{LISTS}{SHAPE}",
        Err((13, WrongSection)),
    ),
    (
        Replay,
        "{HEAD}{PROGRAM}{SHAPE}{LISTS}{SCHEDULE}{LISTS}",
        Err((16, WrongSection)),
    ),
    (
        Replay,
        "{HEAD}{PROGRAM}{SHAPE}{JOURNAL}{FINAL}{FINAL}",
        Err((15, Trailing)),
    ),
    (
        Replay,
        "{HEAD}{PROGRAM}{SHAPE}{JOURNAL}{FINAL}{JOURNAL}",
        Err((15, Trailing)),
    ),
    (
        Replay,
        "{HEAD}{PROGRAM}{SHAPE}{JOURNAL}{FINAL}{TURNS}{TURNS}",
        Err((17, Trailing)),
    ),
    (
        Replay,
        "{HEAD}{PROGRAM}{SHAPE}{JOURNAL}{FINAL}more",
        Err((15, Trailing)),
    ),
    (
        Replay,
        "{HEAD}{PROGRAM}{SHAPE}{JOURNAL}more",
        Err((11, Unexpected)),
    ),
    (Replay, "{HEAD}{PROGRAM}{SHAPE}more", Err((9, Unexpected))),
    (
        Replay,
        "{HEAD}{PROGRAM}{SHAPE}{JOURNAL}$",
        Err((11, BadByte)),
    ),
    (
        Replay,
        "{HEAD}{PROGRAM}{SHAPE}{JOURNAL}{FINAL}$",
        Err((15, BadByte)),
    ),
    (
        Replay,
        "{HEAD}{PROGRAM}{SHAPE}{JOURNAL}{FINAL}{TURNS}$",
        Err((17, BadByte)),
    ),
];
