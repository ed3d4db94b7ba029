//! A run with its changes, and the beginnings of a document.

use crate::pieces::Row;
use shape_files::Form::{Interleave, Replay, Run};
use text_tokens::RefusalKind::{
    BadId, BadValue, NotAdjacent, OutOfBox, Overlap, Trailing, Truncated, Unexpected,
};

/// A run, and what is refused when it is changed.
pub static WORKED: [Row; 16] = [
    (Run, "{HEAD}{OUT}{SHAPE}{LISTS}", Ok([1, 1, 1, -1, -1, -1])),
    (
        Replay,
        "{HEAD}{OUT}{SHAPE}{LISTS}journal\nentry 0 0 0 0 0 expand head 0 spot 3 3 0 body 0 3 3 2 3 0 +\n\
            end\nfinal\narea 0 0 8 8\nbot 3 3 2 3 0 +\nend\nturns\nturn 0 0 done 0\nturn 0 1 idle 1\nend\n",
        Ok([1, 1, 1, -1, 1, 1]),
    ),
    (
        Replay,
        "{HEAD}{OUT}{AREA}bot 1 1 1 1 0 +\nbot 6 6 6 6 0 +\nend\njournal\n\
            entry 0 1 0 1 0 expand head 0 spot 7 6 1 body 1 7 6 6 6 0 +\n\
            entry 1 0 0 0 0 expand head 0 spot 2 1 0 body 0 2 1 1 1 0 +\nend\nfinal\narea 0 0 8 8\n\
            bot 2 1 1 1 0 +\nbot 7 6 6 6 0 +\nend\n",
        Ok([1, 2, -1, -1, 2, 2]),
    ),
    (
        Interleave,
        "{HEAD}program\nvar m 1\naction mark when m = 0 do m := 1\nend\n{AREA}bot 2 3 2 3 0 + 0\n\
            bot 3 3 3 3 0 + 0\nend\nlists\nturns 2\nlist 0\nlist 1\nend\n\
            schedule 0 times 8 1 times 4 0 times 12 1 times 20 end\n",
        Ok([1, 2, 2, 44, -1, -1]),
    ),
    (
        Replay,
        "{HEAD}{PROGRAM_OF_8}shape\narea -1 -1 3 3\nbot -1 0 -1 0 0 - 1 2 3 4 5 6 7 255\nend\njournal\n\
            end\nfinal\narea -1 -1 3 3\nbot -1 0 -1 0 0 - 0 0 0 0 0 0 0 0\nend\n",
        Ok([0, 1, -1, -1, 0, 1]),
    ),
    (
        Replay,
        "{HEAD}{PROGRAM_OF_8}shape\narea -1 -1 3 3\nbot -1 0 -1 0 0 - 1 2 3 4 5 6 7\nend\n",
        Err((15, Unexpected)),
    ),
    (
        Replay,
        "{HEAD}{PROGRAM_OF_8}shape\narea -1 -1 3 3\nbot -1 0 -1 0 0 - 1 2 3 4 5 6 8 255\nend\n",
        Err((14, BadValue)),
    ),
    (Run, "{HEAD}{OUT}{AREA}bot 2 3", Err((7, Truncated))),
    (
        Run,
        "{HEAD}{OUT}{AREA}bot 9 3 9 3 0 +\nend\n{LISTS}",
        Err((7, OutOfBox)),
    ),
    (
        Run,
        "{HEAD}{OUT}{AREA}bot 2 3 4 3 0 +\nend\n{LISTS}",
        Err((7, NotAdjacent)),
    ),
    (
        Run,
        "{HEAD}{OUT}{AREA}bot 2 3 2 3 0 +\nbot 2 3 2 3 0 +\nend\n{LISTS}",
        Err((8, Overlap)),
    ),
    (
        Run,
        "{HEAD}{OUT}{SHAPE}lists\nturns 2\nlist 1\nend\n",
        Err((11, BadId)),
    ),
    (Run, "{HEAD}{OUT}{SHAPE}{LISTS}more\n", Err((13, Trailing))),
    // a section without its end is not ended by the word of another
    (
        Interleave,
        "{HEAD}{PROGRAM}{SHAPE}{LISTS}schedule\n0\n{JOURNAL}",
        Err((15, Unexpected)),
    ),
    (
        Replay,
        "{HEAD}{PROGRAM}{SHAPE}journal\n{FINAL}",
        Err((10, Unexpected)),
    ),
    (
        Replay,
        "{HEAD}{PROGRAM}{SHAPE}{JOURNAL}{FINAL}turns\nturn 0 0 done 0\n{TURNS}",
        Err((17, Unexpected)),
    ),
];

/// The lines of a whole document, each with what is refused of the text before each of its bytes:
/// `.` where it is Truncated, `x` where a word that was cut is Unexpected.
/// It is Truncated behind a whole word but `contract`, and behind a part
/// of a word where a name may stand.
pub static CUTS: [(&str, &str); 12] = [
    ("amoebot 1\n", ".xxxxxx..."),
    ("program\n", ".xxxxxx."),
    (
        "action out when contracted move expand head 0\n",
        ".xxxxx......xxx.........x...xxx..xxxxx........",
    ),
    ("end\n", ".xx."),
    ("shape\n", ".xxxx."),
    ("area 0 0 8 8\n", ".xxx........."),
    ("bot 2 3 2 3 0 +\n", ".xx............."),
    ("end\n", ".xx."),
    ("lists\n", ".xxxx."),
    ("turns 2\n", ".xxxx..."),
    ("list 0\n", ".xxx..."),
    ("end", ".xx"),
];
