//! Shapes, at their bounds and past them.

use crate::pieces::Row;
use shape_files::Form::{Measure, Run};
use text_tokens::RefusalKind::{
    BadByte, BadRange, BadValue, NotAdjacent, OutOfBox, Overlap, Truncated, Unexpected,
};

/// Shapes, at their bounds and past them.
pub static SHAPES: [Row; 38] = [
    (
        Measure,
        "{HEAD}{PROGRAM}shape\narea 0 0 8 8\nend\n",
        Ok([1, 0, -1, -1, -1, -1]),
    ),
    (
        Measure,
        "{HEAD}{PROGRAM}shape\narea -4096 4096 128 1\nend\n",
        Ok([1, 0, -1, -1, -1, -1]),
    ),
    (
        Measure,
        "{HEAD}{PROGRAM}shape\narea - 5 5 1 128\nend\n",
        Ok([1, 0, -1, -1, -1, -1]),
    ),
    (
        Measure,
        "{HEAD}{PROGRAM}shape\narea -4097 0 8 8\nend\n",
        Err((6, BadRange)),
    ),
    (
        Measure,
        "{HEAD}{PROGRAM}shape\narea 4097 0 8 8\nend\n",
        Err((6, BadRange)),
    ),
    (
        Measure,
        "{HEAD}{PROGRAM}shape\narea 0 -4097 8 8\nend\n",
        Err((6, BadRange)),
    ),
    (
        Measure,
        "{HEAD}{PROGRAM}shape\narea 0 4097 8 8\nend\n",
        Err((6, BadRange)),
    ),
    (
        Measure,
        "{HEAD}{PROGRAM}shape\narea 0 0 0 8\nend\n",
        Err((6, BadRange)),
    ),
    (
        Measure,
        "{HEAD}{PROGRAM}shape\narea 0 0 129 8\nend\n",
        Err((6, BadRange)),
    ),
    (
        Measure,
        "{HEAD}{PROGRAM}shape\narea 0 0 8 0\nend\n",
        Err((6, BadRange)),
    ),
    (
        Measure,
        "{HEAD}{PROGRAM}shape\narea 0 0 8 129\nend\n",
        Err((6, BadRange)),
    ),
    (Measure, "{HEAD}{PROGRAM}shape\nend\n", Err((6, Unexpected))),
    (
        Measure,
        "{HEAD}{PROGRAM}shape\narea 0 0 8 -8\nend\n",
        Err((6, Unexpected)),
    ),
    (
        Measure,
        "{HEAD}{PROGRAM}shape\narea 0 0 8 8\nbot 2 3 2 3 5 -\nend\n",
        Ok([1, 1, -1, -1, -1, -1]),
    ),
    (
        Measure,
        "{HEAD}{PROGRAM}shape\narea 0 0 8 8\nbot 3 3 2 3 0 +\nbot 4 3 4 3 0 -\nend\n",
        Ok([1, 2, -1, -1, -1, -1]),
    ),
    (
        Measure,
        "{HEAD}{PROGRAM}shape\narea -4 -4 8 8\nbot -2 -3 -2 -3 0 +\nend\n",
        Ok([1, 1, -1, -1, -1, -1]),
    ),
    (
        Measure,
        "{HEAD}{PROGRAM}shape\narea 0 0 8 8\nbot 2 3 2 3 6 +\nend\n",
        Err((7, BadRange)),
    ),
    (
        Measure,
        "{HEAD}{PROGRAM}shape\narea 0 0 8 8\nbot 2 3 2 3 0 *\nend\n",
        Err((7, BadByte)),
    ),
    (
        Measure,
        "{HEAD}{PROGRAM}shape\narea 0 0 8 8\nbot 2 3 2 3 0\nend\n",
        Err((8, Unexpected)),
    ),
    (
        Measure,
        "{HEAD}{PROGRAM}shape\narea 0 0 8 8\nbot 2 3 2 3 0 + 0\nend\n",
        Err((7, Unexpected)),
    ),
    (
        Measure,
        "{HEAD}{PROGRAM}shape\narea 0 0 8 8\nbot 9 3 9 3 0 +\nend\n",
        Err((7, OutOfBox)),
    ),
    (
        Measure,
        "{HEAD}{PROGRAM}shape\narea 0 0 8 8\nbot 2 3 4 3 0 +\nend\n",
        Err((7, NotAdjacent)),
    ),
    (
        Measure,
        "{HEAD}{PROGRAM}shape\narea 0 0 8 8\nbot 2 3 2 3 0 +\nbot 2 3 2 3 0 +\nend\n",
        Err((8, Overlap)),
    ),
    (
        Measure,
        "{HEAD}{PROGRAM}shape\narea 0 0 8 8\nbot 10000 3 2 3 0 +\nend\n",
        Err((7, BadRange)),
    ),
    (
        Measure,
        "{HEAD}{PROGRAM}shape\narea 0 0 8 8\nbot -\n10000 3 2 3 0 +\nend\n",
        Err((8, BadRange)),
    ),
    (
        Measure,
        "{HEAD}{PROGRAM}shape\narea 0 0 8 8\nbot 9999 3 9999 3 0 +\nend\n",
        Err((7, OutOfBox)),
    ),
    (
        Measure,
        "{HEAD}{PROGRAM}shape\narea 0 0 8 8\nbot 9 3 9 3 0 +\nbot 2 3 2 3 6 +\nend\n",
        Err((8, BadRange)),
    ),
    (
        Measure,
        "{HEAD}{PROGRAM}shape\narea 0 0 8 8\nbot 9 3 9 3 0 +\n",
        Err((8, Truncated)),
    ),
    (
        Measure,
        "{HEAD}{PROGRAM}shape\narea 0 0 8 8\nbot 9 3 9 3 0 +\nend\n$",
        Err((7, OutOfBox)),
    ),
    (
        Measure,
        "{HEAD}{PROGRAM}shape\narea 0 0 8 8\nbot 9 3 9 3 0 +\nend\nmore",
        Err((7, OutOfBox)),
    ),
    (
        Measure,
        "{HEAD}{PROGRAM}shape\narea 0 0 8 8\nbot 2 3 4 3 0 +\nbot 9 9 9 9 0 +\nend\n",
        Err((7, NotAdjacent)),
    ),
    (
        Measure,
        "{HEAD}{PROGRAM_OF_3}shape\narea 0 0 8 8\nbot 2 3 2 3 0 + 3\nend\n",
        Ok([1, 1, -1, -1, -1, -1]),
    ),
    (
        Measure,
        "{HEAD}{PROGRAM_OF_3}shape\narea 0 0 8 8\nbot 2 3 2 3 0 + 4\nend\n",
        Err((8, BadValue)),
    ),
    (
        Measure,
        "{HEAD}{PROGRAM_OF_3}shape\narea 0 0 8 8\nbot 2 3 2 3 0 + 255\nend\n",
        Err((8, BadValue)),
    ),
    (
        Measure,
        "{HEAD}{PROGRAM_OF_3}shape\narea 0 0 8 8\nbot 2 3 2 3 0 + 256\nend\n",
        Err((8, BadRange)),
    ),
    (
        Measure,
        "{HEAD}{PROGRAM_OF_3}shape\narea 0 0 8 8\nbot 2 3 2 3 0 +\nend\n",
        Err((9, Unexpected)),
    ),
    (
        Measure,
        "{HEAD}{PROGRAM_OF_3}shape\narea 0 0 8 8\nbot 9 3 9 3 0 + 4\nend\n",
        Err((8, OutOfBox)),
    ),
    (
        Run,
        "{HEAD}{PROGRAM}shape\narea 0 0 8 8\nlists\n",
        Err((7, Unexpected)),
    ),
];
