//! Documents with walls: what they have, or their first fault.

use shape_files::Form;
use shape_files::Form::{Check, Measure, Replay, Run};
use text_tokens::RefusalKind;
use text_tokens::RefusalKind::{
    BadByte, BadRange, BadWall, NotAdjacent, OnWall, OutOfBox, Overlap, Truncated, Unexpected,
};

/// The template of a document of a form; how many amoebots and walls its shape has,
/// and how many walls its last shape, or -1 without one.
pub type Walled = (Form, &'static str, Result<[i64; 3], (u32, RefusalKind)>);

/// Documents with walls in an area of 8 by 8 nodes.
pub static WALLS: [Walled; 54] = [
    (
        Measure,
        "{HEAD_2}{PROGRAM}shape\narea 0 0 8 8\nbot 2 3 2 3 0 +\nend\n",
        Ok([1, 0, -1]),
    ),
    (
        Measure,
        "{HEAD_2}{PROGRAM}shape\narea 0 0 8 8\nwall 3 3\nbot 2 3 2 3 0 +\nend\n",
        Ok([1, 1, -1]),
    ),
    // The corners of the area.
    (
        Measure,
        "{HEAD_2}{PROGRAM}shape\narea 0 0 8 8\nwall 0 0\nwall 7 0\nwall 0 7\nwall 7 7\nbot 2 3 2 3 0 +\n\
            end\n",
        Ok([1, 4, -1]),
    ),
    // In any order.
    (
        Measure,
        "{HEAD_2}{PROGRAM}shape\narea 0 0 8 8\nwall 7 7\nwall 0 0\nbot 2 3 2 3 0 +\nend\n",
        Ok([1, 2, -1]),
    ),
    // Lines do not matter.
    (
        Measure,
        "{HEAD_2}{PROGRAM}shape\narea 0 0 8 8\nwall 3 3 wall 4 4 bot 2 3 2 3 0 + end\n",
        Ok([1, 2, -1]),
    ),
    (
        Measure,
        "{HEAD_2}{PROGRAM}shape\narea 0 0 8 8\nwall 03 003\nbot 2 3 2 3 0 +\nend\n",
        Ok([1, 1, -1]),
    ),
    // An amoebot shut in by walls.
    (
        Measure,
        "{HEAD_2}{PROGRAM}shape\narea 0 0 8 8\nwall 3 3\nwall 2 4\nwall 1 4\nwall 1 3\nwall 2 2\n\
            wall 3 2\nbot 2 3 2 3 0 +\nend\n",
        Ok([1, 6, -1]),
    ),
    // Beside an expanded amoebot.
    (
        Measure,
        "{HEAD_2}{PROGRAM}shape\narea 0 0 8 8\nwall 4 3\nbot 3 3 2 3 0 +\nend\n",
        Ok([1, 1, -1]),
    ),
    // Version 1.
    (
        Measure,
        "{HEAD}{PROGRAM}shape\narea 0 0 8 8\nbot 2 3 2 3 0 +\nend\n",
        Ok([1, 0, -1]),
    ),
    (
        Replay,
        "{HEAD_2}{PROGRAM}shape\narea 0 0 8 8\nwall 3 3\nbot 2 3 2 3 0 +\nend\njournal\nend\nfinal\n\
            area 0 0 8 8\nwall 3 3\nbot 2 3 2 3 0 +\nend\n",
        Ok([1, 1, 1]),
    ),
    // Walls in the last shape alone.
    (
        Replay,
        "{HEAD_2}{PROGRAM}shape\narea 0 0 8 8\nbot 2 3 2 3 0 +\nend\njournal\nend\nfinal\narea 0 0 8 8\n\
            wall 3 3\nbot 2 3 2 3 0 +\nend\n",
        Ok([1, 0, 1]),
    ),
    (
        Check,
        "{HEAD_2}{PROGRAM}shape\narea 0 0 8 8\nwall 3 3\nbot 2 3 2 3 0 +\nend\n",
        Ok([1, 1, -1]),
    ),
    // The failure that walls bring.
    (
        Replay,
        "{HEAD_2}{PROGRAM}{SHAPE}{JOURNAL}{FINAL}turns\nturn 0 0 failed blocked 0\nend\n",
        Ok([1, 0, 0]),
    ),
    // Outside the area.
    (
        Measure,
        "{HEAD_2}{PROGRAM}shape\narea 0 0 8 8\nwall 8 0\nbot 2 3 2 3 0 +\nend\n",
        Err((7, BadWall)),
    ),
    (
        Measure,
        "{HEAD_2}{PROGRAM}shape\narea 0 0 8 8\nwall 0 8\nbot 2 3 2 3 0 +\nend\n",
        Err((7, BadWall)),
    ),
    (
        Measure,
        "{HEAD_2}{PROGRAM}shape\narea 0 0 8 8\nwall -1 0\nbot 2 3 2 3 0 +\nend\n",
        Err((7, BadWall)),
    ),
    (
        Measure,
        "{HEAD_2}{PROGRAM}shape\narea 0 0 8 8\nwall 0 -1\nbot 2 3 2 3 0 +\nend\n",
        Err((7, BadWall)),
    ),
    (
        Measure,
        "{HEAD_2}{PROGRAM}shape\narea 0 0 8 8\nwall 9999 -9999\nbot 2 3 2 3 0 +\nend\n",
        Err((7, BadWall)),
    ),
    // Twice.
    (
        Measure,
        "{HEAD_2}{PROGRAM}shape\narea 0 0 8 8\nwall 3 3\nwall 3 3\nbot 2 3 2 3 0 +\nend\n",
        Err((8, BadWall)),
    ),
    (
        Measure,
        "{HEAD_2}{PROGRAM}shape\narea 0 0 8 8\nwall 3 3\nwall 4 4\nwall 3 3\nend\n",
        Err((9, BadWall)),
    ),
    // Two faults in either order.
    (
        Measure,
        "{HEAD_2}{PROGRAM}shape\narea 0 0 8 8\nwall 3 3\nwall 8 8\nwall 3 3\nend\n",
        Err((8, BadWall)),
    ),
    (
        Measure,
        "{HEAD_2}{PROGRAM}shape\narea 0 0 8 8\nwall 3 3\nwall 3 3\nwall 8 8\nend\n",
        Err((8, BadWall)),
    ),
    // An amoebot on a wall.
    (
        Measure,
        "{HEAD_2}{PROGRAM}shape\narea 0 0 8 8\nwall 2 3\nbot 2 3 2 3 0 +\nend\n",
        Err((8, OnWall)),
    ),
    (
        Measure,
        "{HEAD_2}{PROGRAM}shape\narea 0 0 8 8\nwall 3 3\nbot 3 3 2 3 0 +\nend\n",
        Err((8, OnWall)),
    ),
    (
        Measure,
        "{HEAD_2}{PROGRAM}shape\narea 0 0 8 8\nwall 2 3\nbot 3 3 2 3 0 +\nend\n",
        Err((8, OnWall)),
    ),
    (
        Measure,
        "{HEAD_2}{PROGRAM}shape\narea 0 0 8 8\nwall 5 5\nbot 2 3 2 3 0 +\nbot 5 5 5 5 0 +\nend\n",
        Err((9, OnWall)),
    ),
    // Behind an amoebot.
    (
        Measure,
        "{HEAD_2}{PROGRAM}shape\narea 0 0 8 8\nbot 2 3 2 3 0 +\nwall 3 3\nend\n",
        Err((8, Unexpected)),
    ),
    // Before the area.
    (
        Measure,
        "{HEAD_2}{PROGRAM}shape\nwall 3 3\narea 0 0 8 8\nend\n",
        Err((6, Unexpected)),
    ),
    // Version 1 has no such word.
    (
        Measure,
        "{HEAD}{PROGRAM}shape\narea 0 0 8 8\nwall 3 3\nbot 2 3 2 3 0 +\nend\n",
        Err((7, Unexpected)),
    ),
    (
        Replay,
        "{HEAD}{PROGRAM}shape\narea 0 0 8 8\nend\njournal\nend\nfinal\narea 0 0 8 8\nwall 3 3\nend\n",
        Err((12, Unexpected)),
    ),
    (
        Replay,
        "{HEAD}{PROGRAM}{SHAPE}{JOURNAL}{FINAL}turns\nturn 0 0 failed\nblocked 0\nend\n",
        Err((17, Unexpected)),
    ),
    // Numbers and tokens.
    (
        Measure,
        "{HEAD_2}{PROGRAM}shape\narea 0 0 8 8\nwall 10000 0\nbot 2 3 2 3 0 +\nend\n",
        Err((7, BadRange)),
    ),
    (
        Measure,
        "{HEAD_2}{PROGRAM}shape\narea 0 0 8 8\nwall 0 -\n10000\nend\n",
        Err((8, BadRange)),
    ),
    (
        Measure,
        "{HEAD_2}{PROGRAM}shape\narea 0 0 8 8\nwall 3\nbot 2 3 2 3 0 +\nend\n",
        Err((8, Unexpected)),
    ),
    (
        Measure,
        "{HEAD_2}{PROGRAM}shape\narea 0 0 8 8\nwall 3 3 3\nbot 2 3 2 3 0 +\nend\n",
        Err((7, Unexpected)),
    ),
    (
        Measure,
        "{HEAD_2}{PROGRAM}shape\narea 0 0 8 8\nwall + 3 3\nend\n",
        Err((7, Unexpected)),
    ),
    (
        Measure,
        "{HEAD_2}{PROGRAM}shape\narea 0 0 8 8\nwalls 3 3\nend\n",
        Err((7, Unexpected)),
    ),
    (
        Measure,
        "{HEAD_2}{PROGRAM}shape\narea 0 0 8 8\nwall 3 $\n",
        Err((7, BadByte)),
    ),
    (
        Measure,
        "{HEAD_2}{PROGRAM}shape\narea 0 0 8 8\nwall 3\n",
        Err((8, Truncated)),
    ),
    (
        Measure,
        "{HEAD_2}{PROGRAM}shape\narea 0 0 8 8\nwall 3",
        Err((7, Truncated)),
    ),
    (
        Measure,
        "{HEAD_2}{PROGRAM}shape\narea 0 0 8 8\nwall 3 3\nlists\n",
        Err((8, Unexpected)),
    ),
    // Grammar before rules.
    (
        Measure,
        "{HEAD_2}{PROGRAM}shape\narea 0 0 8 8\nwall 8 0\nbot 2 3 2 3 6 +\nend\n",
        Err((8, BadRange)),
    ),
    // Walls before amoebots.
    (
        Measure,
        "{HEAD_2}{PROGRAM}shape\narea 0 0 8 8\nwall 8 0\nbot 9 3 9 3 0 +\nend\n",
        Err((7, BadWall)),
    ),
    // By rising id.
    (
        Measure,
        "{HEAD_2}{PROGRAM}shape\narea 0 0 8 8\nwall 2 3\nbot 2 3 2 3 0 +\nbot 9 3 9 3 0 +\nend\n",
        Err((8, OnWall)),
    ),
    (
        Measure,
        "{HEAD_2}{PROGRAM}shape\narea 0 0 8 8\nwall 2 3\nbot 9 3 9 3 0 +\nbot 2 3 2 3 0 +\nend\n",
        Err((8, OutOfBox)),
    ),
    // The first rule of one amoebot.
    (
        Measure,
        "{HEAD_2}{PROGRAM}shape\narea 0 0 8 8\nwall 7 3\nbot 8 3 7 3 0 +\nend\n",
        Err((8, OutOfBox)),
    ),
    (
        Measure,
        "{HEAD_2}{PROGRAM}shape\narea 0 0 8 8\nwall 2 3\nbot 2 3 4 3 0 +\nend\n",
        Err((8, NotAdjacent)),
    ),
    (
        Measure,
        "{HEAD_2}{PROGRAM}shape\narea 0 0 8 8\nwall 2 3\nbot 3 3 3 3 0 +\nbot 3 3 2 3 0 +\nend\n",
        Err((9, OnWall)),
    ),
    (
        Measure,
        "{HEAD_2}{PROGRAM}shape\narea 0 0 8 8\nwall 5 5\nbot 2 3 2 3 0 +\nbot 2 3 2 3 0 +\n\
            bot 5 5 5 5 0 +\nend\n",
        Err((9, Overlap)),
    ),
    (
        Measure,
        "{HEAD_2}{PROGRAM}shape\narea 0 0 8 8\nwall 5 5\nbot 2 3 2 3 0 +\nbot 5 5 5 5 0 +\n\
            bot 2 3 2 3 0 +\nend\n",
        Err((9, OnWall)),
    ),
    // Before what follows.
    (
        Run,
        "{HEAD_2}{PROGRAM}shape\narea 0 0 8 8\nwall 8 0\nbot 2 3 2 3 0 +\nend\nlists\nturns 1\nlist 7\n\
            end\n",
        Err((7, BadWall)),
    ),
    (
        Measure,
        "{HEAD_2}{PROGRAM}shape\narea 0 0 8 8\nwall 8 0\nbot 2 3 2 3 0 +\nend\nmore\n",
        Err((7, BadWall)),
    ),
    // In the last shape.
    (
        Replay,
        "{HEAD_2}{PROGRAM}shape\narea 0 0 8 8\nend\njournal\nend\nfinal\narea 0 0 8 8\nwall 8 0\nend\n",
        Err((12, BadWall)),
    ),
    (
        Replay,
        "{HEAD_2}{PROGRAM}shape\narea 0 0 8 8\nend\njournal\nend\nfinal\narea 0 0 8 8\nwall 2 3\n\
            bot 2 3 2 3 0 +\nend\n",
        Err((13, OnWall)),
    ),
];
