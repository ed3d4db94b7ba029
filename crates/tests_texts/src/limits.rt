//! Limits on numbers, just kept and just passed.

use crate::pieces::Row;
use shape_files::Form::{Interleave, Measure, Replay, Run};
use text_tokens::RefusalKind::{BadEntry, BadId, BadWall, Overlap, TooMany, Unexpected};

/// Limits on numbers, just kept and just passed.
pub static LIMITS: [Row; 27] = [
    (
        Measure,
        "amoebot 2\n{PROGRAM}shape\narea 0 0 8 8\n{16384:wall 3 3\n}end\n",
        Err((8, BadWall)),
    ),
    (
        Measure,
        "amoebot 2\n{PROGRAM}shape\narea 0 0 8 8\n{16384:wall 3 3\n}wall 10000 0\nend\n",
        Err((16391, TooMany)),
    ),
    (
        Measure,
        "{HEAD}{PROGRAM}shape\narea 0 0 8 8\n{4096:bot 2 3 2 3 0 +\n}end\n",
        Err((8, Overlap)),
    ),
    (
        Measure,
        "{HEAD}{PROGRAM}shape\narea 0 0 8 8\n{4097:bot 2 3 2 3 0 +\n}end\n",
        Err((4103, TooMany)),
    ),
    (
        Measure,
        "{HEAD}{PROGRAM}shape\narea 0 0 8 8\n{4096:bot 2 3 2 3 0 +\n}lists\n",
        Err((4103, Unexpected)),
    ),
    (
        Run,
        "{HEAD}{PROGRAM}{SHAPE}lists\nturns 0\n{16:list 0\n}end\n",
        Ok([1, 1, 16, -1, -1, -1]),
    ),
    (
        Run,
        "{HEAD}{PROGRAM}{SHAPE}lists\nturns 0\n{17:list 0\n}end\n",
        Err((27, TooMany)),
    ),
    (
        Run,
        "{HEAD}{PROGRAM}{SHAPE}lists\nturns 4096\n{16:list 0\n}end\n",
        Ok([1, 1, 16, -1, -1, -1]),
    ),
    (
        Run,
        "{HEAD}{PROGRAM}{SHAPE}lists\nturns 4097\n{16:list 0\n}end\n",
        Err((26, TooMany)),
    ),
    (
        Run,
        "{HEAD}{PROGRAM}{SHAPE}lists\nturns 4369\n{15:list 0\n}end\n",
        Ok([1, 1, 15, -1, -1, -1]),
    ),
    (
        Run,
        "{HEAD}{PROGRAM}{SHAPE}lists\nturns 4370\n{15:list 0\n}end\n",
        Err((25, TooMany)),
    ),
    (
        Run,
        "{HEAD}{PROGRAM}{SHAPE}lists\nturns 2\nlist{4096: 0}\nend\n",
        Ok([1, 1, 1, -1, -1, -1]),
    ),
    (
        Run,
        "{HEAD}{PROGRAM}{SHAPE}lists\nturns 2\nlist{4096: 0}\n0\nend\n",
        Err((12, TooMany)),
    ),
    (
        Run,
        "{HEAD}{PROGRAM}{SHAPE}lists\nturns 2\nlist{4096: 0}\n1\nend\n",
        Err((12, TooMany)),
    ),
    (
        Run,
        "{HEAD}{PROGRAM}{SHAPE}lists\nturns 2\nlist{4095: 0}\n1\nend\n",
        Err((12, BadId)),
    ),
    (
        Interleave,
        "{HEAD}{PROGRAM}{SHAPE}{LISTS}schedule\n0 times 1000000\nend\n",
        Ok([1, 1, 1, 1000000, -1, -1]),
    ),
    (
        Interleave,
        "{HEAD}{PROGRAM}{SHAPE}{LISTS}schedule\n0 times 999999\n0\nend\n",
        Ok([1, 1, 1, 1000000, -1, -1]),
    ),
    (
        Interleave,
        "{HEAD}{PROGRAM}{SHAPE}{LISTS}schedule\n0 times 1000000\n0\nend\n",
        Err((15, TooMany)),
    ),
    (
        Interleave,
        "{HEAD}{PROGRAM}{SHAPE}{LISTS}schedule\n0 times 1000000\n1\nend\n",
        Err((15, TooMany)),
    ),
    (
        Interleave,
        "{HEAD}{PROGRAM}{SHAPE}{LISTS}schedule\n0 times 1000000\n0 times 0\nend\n",
        Err((15, TooMany)),
    ),
    (
        Interleave,
        "{HEAD}{PROGRAM}{SHAPE}{LISTS}schedule\n0 times 999999\n0\ntimes 2\nend\n",
        Err((16, TooMany)),
    ),
    (
        Interleave,
        "{HEAD}{PROGRAM}{SHAPE}{LISTS}schedule\n0 times 999999\n1\nend\n",
        Err((15, BadId)),
    ),
    (
        Replay,
        "{HEAD}{PROGRAM}{SHAPE}journal\nentry 0 0 0 0 0 none\n{10:spot 1 1 empty\n}end\n{FINAL}",
        Ok([1, 1, -1, -1, 1, 1]),
    ),
    (
        Replay,
        "{HEAD}{PROGRAM}{SHAPE}journal\nentry 0 0 0 0 0 none\n{11:spot 1 1 empty\n}end\n{FINAL}",
        Err((21, TooMany)),
    ),
    (
        Replay,
        "{HEAD}{PROGRAM}{SHAPE}journal\nentry 0 0 0 0 0 none\n{10:spot 1 1 empty\n}body 0 2 3 2 3 0 +\n\
            end\n{FINAL}",
        Err((21, TooMany)),
    ),
    (
        Replay,
        "{HEAD}{PROGRAM}{SHAPE}journal\nentry 0 0 0 0 0 none\n{11:spot 1 1 1\n}end\n{FINAL}",
        Err((21, TooMany)),
    ),
    (
        Replay,
        "{HEAD}{PROGRAM}{SHAPE}journal\nentry 0 0 0 0 0 none\n{10:spot 1 1 1\n}end\n{FINAL}",
        Err((10, BadEntry)),
    ),
];
