//! Lists and schedules, at their bounds and past them.

use crate::pieces::Row;
use shape_files::Form::{Interleave, Run};
use text_tokens::RefusalKind::{BadId, BadRange, TooMany, Truncated, Unexpected};

/// Lists and schedules, at their bounds and past them.
pub static LISTS_AND_SCHEDULES: [Row; 23] = [
    (
        Run,
        "{HEAD}{PROGRAM}{SHAPE}lists\nturns 0\nend\n",
        Ok([1, 1, 0, -1, -1, -1]),
    ),
    (
        Run,
        "{HEAD}{PROGRAM}{SHAPE}lists\nturns 65536\nlist 0\nend\n",
        Ok([1, 1, 1, -1, -1, -1]),
    ),
    (
        Run,
        "{HEAD}{PROGRAM}{SHAPE}lists\nturns 65536\nend\n",
        Ok([1, 1, 0, -1, -1, -1]),
    ),
    (
        Run,
        "{HEAD}{PROGRAM}{SHAPE}lists\nturns 65537\nend\n",
        Err((10, TooMany)),
    ),
    (
        Run,
        "{HEAD}{PROGRAM}{SHAPE}lists\nturns 32768\nlist 0\nlist 0\nend\n",
        Ok([1, 1, 2, -1, -1, -1]),
    ),
    (
        Run,
        "{HEAD}{PROGRAM}{SHAPE}lists\nturns 32769\nlist 0\nlist 0\nend\n",
        Err((12, TooMany)),
    ),
    (
        Run,
        "{HEAD}{PROGRAM}{SHAPE}lists\nturns 2\nlist 1\nend\n",
        Err((11, BadId)),
    ),
    (
        Run,
        "{HEAD}{PROGRAM}{SHAPE}lists\nturns 2\nlist 0 0\n1\nend\n",
        Err((12, BadId)),
    ),
    (
        Run,
        "{HEAD}{PROGRAM}{SHAPE}lists\nturns 2\nlist\nend\n",
        Err((12, Unexpected)),
    ),
    (
        Run,
        "{HEAD}{PROGRAM}{SHAPE}lists\nlist 0\nend\n",
        Err((10, Unexpected)),
    ),
    (
        Run,
        "{HEAD}{PROGRAM}{SHAPE}lists\nturns 2\nlist 0\n",
        Err((12, Truncated)),
    ),
    (
        Run,
        "{HEAD}{PROGRAM}{SHAPE}lists\nturns -1\nend\n",
        Err((10, Unexpected)),
    ),
    (
        Run,
        "{HEAD}{PROGRAM}{SHAPE}lists\nturns 2\nlist 0\nschedule\n",
        Err((12, Unexpected)),
    ),
    (
        Interleave,
        "{HEAD}{PROGRAM}{SHAPE}{LISTS}schedule\nend\n",
        Ok([1, 1, 1, 0, -1, -1]),
    ),
    (
        Interleave,
        "{HEAD}{PROGRAM}{SHAPE}{LISTS}schedule\n0\n0 times 2\nend\n",
        Ok([1, 1, 1, 3, -1, -1]),
    ),
    (
        Interleave,
        "{HEAD}{PROGRAM}{SHAPE}{LISTS}schedule\n1\nend\n",
        Err((14, BadId)),
    ),
    (
        Interleave,
        "{HEAD}{PROGRAM}{SHAPE}{LISTS}schedule\n0 times 0\nend\n",
        Err((14, BadRange)),
    ),
    (
        Interleave,
        "{HEAD}{PROGRAM}{SHAPE}{LISTS}schedule\n0 times\nend\n",
        Err((15, Unexpected)),
    ),
    (
        Interleave,
        "{HEAD}{PROGRAM}{SHAPE}{LISTS}schedule\ntimes 3\nend\n",
        Err((14, Unexpected)),
    ),
    (
        Interleave,
        "{HEAD}{PROGRAM}{SHAPE}{LISTS}schedule\n0 times 1000001\nend\n",
        Err((14, TooMany)),
    ),
    (
        Interleave,
        "{HEAD}{PROGRAM}{SHAPE}{LISTS}schedule\n0 times\n1000001\nend\n",
        Err((15, TooMany)),
    ),
    (
        Interleave,
        "{HEAD}{PROGRAM}{SHAPE}{LISTS}schedule\n0\n",
        Err((15, Truncated)),
    ),
    (
        Run,
        "{HEAD}{PROGRAM}{SHAPE}{LISTS}schedule\n1\nend\n",
        Err((14, BadId)),
    ),
];
