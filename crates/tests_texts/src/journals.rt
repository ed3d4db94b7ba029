//! Journals, last shapes and turns, and the limit on entries.

use crate::pieces::{Expected, Row};
use shape_files::Form::Replay;
use text_tokens::RefusalKind::{
    BadByte, BadEntry, BadPlace, BadRange, OutOfBox, TooMany, Truncated, Unexpected,
};

/// Journals, last shapes and turns.
pub static JOURNALS: [Row; 34] = [
    (
        Replay,
        "{HEAD}{PROGRAM}{SHAPE}journal\nentry 0 0 0 0 0 none\nend\n{FINAL}",
        Ok([1, 1, -1, -1, 1, 1]),
    ),
    (
        Replay,
        "{HEAD}{PROGRAM}{SHAPE}journal\nentry 0 15 65535 0 0 contract tail\nend\n{FINAL}",
        Ok([1, 1, -1, -1, 1, 1]),
    ),
    (
        Replay,
        "{HEAD}{PROGRAM}{SHAPE}journal\nentry 0 0 0 0 0 expand head 0 spot 3 3 0 body 0 3 3 2 3 0 +\n\
            end\n{FINAL}",
        Ok([1, 1, -1, -1, 1, 1]),
    ),
    (
        Replay,
        "{HEAD}{PROGRAM}{SHAPE}journal\nentry 0 0 0 0 0 none\n\
            entry 1 0 0 0 0 push tail 5 spot -9999 9999 empty\nend\n{FINAL}",
        Ok([1, 1, -1, -1, 2, 1]),
    ),
    (
        Replay,
        "{HEAD}{PROGRAM}{SHAPE}journal\nentry 1 0 0 0 0 none\nend\n{FINAL}",
        Err((10, BadPlace)),
    ),
    (
        Replay,
        "{HEAD}{PROGRAM}{SHAPE}journal\nentry 0 0 0 0 0 none\nentry 0 0 0 0 0 none\nend\n{FINAL}",
        Err((11, BadPlace)),
    ),
    (
        Replay,
        "{HEAD}{PROGRAM}{SHAPE}journal\nentry 1 16 0 0 0 none\nend\n{FINAL}",
        Err((10, BadPlace)),
    ),
    (
        Replay,
        "{HEAD}{PROGRAM}{SHAPE}journal\nentry 0 16 0 0 0 none\nend\n{FINAL}",
        Err((10, BadEntry)),
    ),
    (
        Replay,
        "{HEAD}{PROGRAM}{SHAPE}journal\nentry 0 0 65536 0 0 none\nend\n{FINAL}",
        Err((10, BadEntry)),
    ),
    (
        Replay,
        "{HEAD}{PROGRAM}{SHAPE}journal\nentry 0 0 0 1 0 none\nend\n{FINAL}",
        Err((10, BadEntry)),
    ),
    (
        Replay,
        "{HEAD}{PROGRAM}{SHAPE}journal\nentry 0 0 0 0 1 none\nend\n{FINAL}",
        Err((10, BadEntry)),
    ),
    (
        Replay,
        "{HEAD}{PROGRAM}{SHAPE}journal\nentry 0 0 0 0 0 none spot 1 1 1\nend\n{FINAL}",
        Err((10, BadEntry)),
    ),
    (
        Replay,
        "{HEAD}{PROGRAM}{SHAPE}journal\nentry 0 0 0 0 0\nnone body\n1 2 3 2 3 0 +\nend\n{FINAL}",
        Err((10, BadEntry)),
    ),
    (
        Replay,
        "{HEAD}{PROGRAM}{SHAPE}journal\nentry 0 0 0 0 0 none\n${FINAL}",
        Err((11, BadByte)),
    ),
    (
        Replay,
        "{HEAD}{PROGRAM}{SHAPE}journal\nentry 1 0 0 0 0 none\n${FINAL}",
        Err((10, BadPlace)),
    ),
    (
        Replay,
        "{HEAD}{PROGRAM}{SHAPE}journal\nentry 0 16 0 0 0 none",
        Err((10, BadEntry)),
    ),
    (
        Replay,
        "{HEAD}{PROGRAM}{SHAPE}journal\nentry 0 0 0 0 0 none",
        Err((10, Truncated)),
    ),
    (
        Replay,
        "{HEAD}{PROGRAM}{SHAPE}journal\nentry 0 0 0 0 0 expand head 6\nend\n{FINAL}",
        Err((10, BadRange)),
    ),
    (
        Replay,
        "{HEAD}{PROGRAM}{SHAPE}journal\nentry 0 16 0 0 0\nexpand head 6\nend\n{FINAL}",
        Err((11, BadRange)),
    ),
    (
        Replay,
        "{HEAD}{PROGRAM}{SHAPE}journal\nentry 0 0 0 0 none\nend\n{FINAL}",
        Err((10, Unexpected)),
    ),
    (
        Replay,
        "{HEAD}{PROGRAM}{SHAPE}journal\nentry 0 0 0 0 0 none final\n{FINAL}",
        Err((10, Unexpected)),
    ),
    (
        Replay,
        "{HEAD}{PROGRAM}{SHAPE}journal\nentry 0 0 0 0 0 none spot 10000 0 empty\nend\n{FINAL}",
        Err((10, BadRange)),
    ),
    (
        Replay,
        "{HEAD}{PROGRAM}{SHAPE}journal\nentry 0 0 0 0 0 none body 0 2 3 2 3 6 +\nend\n{FINAL}",
        Err((10, BadRange)),
    ),
    (
        Replay,
        "{HEAD}{PROGRAM}{SHAPE}{JOURNAL}final\narea 0 0 3 3\nend\n",
        Ok([1, 1, -1, -1, 0, 0]),
    ),
    (
        Replay,
        "{HEAD}{PROGRAM}{SHAPE}{JOURNAL}final\narea 0 0 8 8\nbot 9 3 9 3 0 +\nend\n",
        Err((13, OutOfBox)),
    ),
    (
        Replay,
        "{HEAD}{PROGRAM}{SHAPE}{JOURNAL}final\narea 0 0 8 8\nbot 9 3 9 3 0 +\nend\n$",
        Err((13, OutOfBox)),
    ),
    (
        Replay,
        "{HEAD}{PROGRAM}{SHAPE}{JOURNAL}final\narea 0 0 0 8\nend\n",
        Err((12, BadRange)),
    ),
    (
        Replay,
        "{HEAD}{PROGRAM}{SHAPE}{JOURNAL}{FINAL}turns\nturn 0 0 done 0\nend\n",
        Ok([1, 1, -1, -1, 0, 1]),
    ),
    (
        Replay,
        "{HEAD}{PROGRAM}{SHAPE}{JOURNAL}{FINAL}turns\nturn 0 0 failed edge 0\nturn 99 999999999 idle 7\n\
            end\n",
        Ok([1, 1, -1, -1, 0, 1]),
    ),
    (
        Replay,
        "{HEAD}{PROGRAM}{SHAPE}{JOURNAL}{FINAL}turns\nturn 0 0 busy spot 3 3 by 1 0 1 place 0\n\
            turn 0 1 busy body 7 by 1 0 1 place 0\nend\n",
        Ok([1, 1, -1, -1, 0, 1]),
    ),
    (
        Replay,
        "{HEAD}{PROGRAM}{SHAPE}{JOURNAL}{FINAL}turns\nturn 0 0 busy spot 10000 3 by 1 0 1 place 0\nend\n",
        Err((16, BadRange)),
    ),
    (
        Replay,
        "{HEAD}{PROGRAM}{SHAPE}{JOURNAL}{FINAL}turns\nturn 0 0 failed many 0\nend\n",
        Err((16, Unexpected)),
    ),
    (
        Replay,
        "{HEAD}{PROGRAM}{SHAPE}{JOURNAL}{FINAL}turns\nturn 0 0 done\nend\n",
        Err((17, Unexpected)),
    ),
    (
        Replay,
        "{HEAD}{PROGRAM}{SHAPE}{JOURNAL}{FINAL}turns\nturn 0 0 done 0\n",
        Err((17, Truncated)),
    ),
];

/// Entries that do nothing, so many, what stands behind them, and what is said of the document.
pub type Journal = (u32, &'static str, Expected);

/// The limit on entries, just kept and just passed. The first entry stands on line 10.
pub static LONG_JOURNALS: [Journal; 4] = [
    (65_536, "end\n", Ok([1, 1, -1, -1, 65_536, 1])),
    (65_537, "end\n", Err((65_546, TooMany))),
    // what is wrong with the last entry comes before one too many
    (
        65_535,
        "entry 65535 16 0 0 0 none\nentry 65536 0 0 0 0 none\nend\n",
        Err((65_545, BadEntry)),
    ),
    (
        65_535,
        "entry 65534 0 0 0 0 none\nentry 65535 0 0 0 0 none\nend\n",
        Err((65_545, BadPlace)),
    ),
];
