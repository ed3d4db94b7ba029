//! Documents with two faults, and bad bytes.

use crate::pieces::Row;
use shape_files::Form::{Check, Interleave, Measure, Replay, Run};
use text_tokens::RefusalKind::{
    BadByte, BadEntry, BadId, BadPlace, BadRange, BadValue, NotAdjacent, OutOfBox, Overlap,
    TooMany, Trailing, TwiceNamed, Unexpected, UnknownName, WordTooLong, WrongSection, WrongType,
};

/// Documents with two faults, in either order.
pub static TWO_FAULTS: [Row; 46] = [
    (
        Run,
        "amoebot 4\nprogram\nvar m 256\nend\n",
        Err((1, BadRange)),
    ),
    (Run, "amoebot 4\n{SHAPE}", Err((1, BadRange))),
    (Run, "amoebot 4\n$", Err((1, BadRange))),
    (Run, "amoebot $ 2\n{SHAPE}", Err((1, BadByte))),
    (Run, "{HEAD}{PROGRAM}{LISTS}$", Err((5, WrongSection))),
    (Run, "{HEAD}{PROGRAM}${LISTS}", Err((5, BadByte))),
    (
        Run,
        "{HEAD}{PROGRAM}{SHAPE}{LISTS}more\n$",
        Err((13, Trailing)),
    ),
    (
        Run,
        "{HEAD}{PROGRAM}{SHAPE}{LISTS}$\nmore",
        Err((13, BadByte)),
    ),
    // rules of a program: the earlier name or number
    (
        Check,
        "{HEAD}program\nvar m 3\naction a when linked m\nand x = 0\nend\n",
        Err((4, WrongType)),
    ),
    (
        Check,
        "{HEAD}program\nvar m 3\naction a when x = 0\nand linked m\nend\n",
        Err((4, UnknownName)),
    ),
    (
        Check,
        "{HEAD}program\nvar m 3 var m 256\nend\n",
        Err((3, TwiceNamed)),
    ),
    (
        Check,
        "{HEAD}program\nvar m 256 var m 3\nend\n",
        Err((3, BadRange)),
    ),
    // a program's rules come behind its grammar, and before the next section
    (
        Run,
        "{HEAD}program\nvar m 256\n)\nend\n",
        Err((4, Unexpected)),
    ),
    (
        Run,
        "{HEAD}program\nvar m 256\nend\nshape\nend\n",
        Err((3, BadRange)),
    ),
    // amoebots: grammar before rules, then by rising id, and of one by the order of its rules
    (
        Measure,
        "{HEAD}{PROGRAM_OF_3}{AREA}bot 9 3 9 3 0 + 0\nbot 2 3 2 3 0 + 256\nend\n",
        Err((9, BadRange)),
    ),
    (
        Measure,
        "{HEAD}{PROGRAM_OF_3}{AREA}bot 2 3 2 3 0 + 256\nbot 9 3 9 3 0 + 0\nend\n",
        Err((8, BadRange)),
    ),
    (
        Measure,
        "{HEAD}{PROGRAM_OF_3}{AREA}bot 2 3 2 3 0 + 4\nbot 2 3 2 3 0 + 0\nend\n",
        Err((8, BadValue)),
    ),
    (
        Measure,
        "{HEAD}{PROGRAM_OF_3}{AREA}bot 2 3 2 3 0 + 0\nbot 2 3 2 3 0 + 4\nend\n",
        Err((9, Overlap)),
    ),
    (
        Measure,
        "{HEAD}{PROGRAM}{AREA}bot 9 3 9 3 0 +\nbot 2 3 4 3 0 +\nend\n",
        Err((7, OutOfBox)),
    ),
    (
        Measure,
        "{HEAD}{PROGRAM}{AREA}bot 9 3 5 3 0 +\nend\n",
        Err((7, OutOfBox)),
    ),
    (
        Measure,
        "{HEAD}{PROGRAM_OF_3}{AREA}bot 2 3 4 3 0 + 4\nend\n",
        Err((8, NotAdjacent)),
    ),
    (
        Measure,
        "{HEAD}{PROGRAM}shape\narea 0 0 129 8\nbot 2 3 2 3 6 +\nend\n",
        Err((6, BadRange)),
    ),
    (
        Measure,
        "{HEAD}{PROGRAM}shape\narea 4097 0\n129 8\nend\n",
        Err((6, BadRange)),
    ),
    // lists
    (
        Run,
        "{HEAD}{PROGRAM}{SHAPE}lists\nturns 2\nlist 1\nlist\nend\n",
        Err((11, BadId)),
    ),
    (
        Run,
        "{HEAD}{PROGRAM}{SHAPE}lists\nturns 2\nlist\nlist 1\nend\n",
        Err((12, Unexpected)),
    ),
    (
        Run,
        "{HEAD}{PROGRAM}{SHAPE}lists\nturns 65536\nlist 1\nlist 0\nend\n",
        Err((11, BadId)),
    ),
    (
        Run,
        "{HEAD}{PROGRAM}{SHAPE}lists\nturns 65536\nlist 0\nlist 1\nend\n",
        Err((12, TooMany)),
    ),
    // schedules
    (
        Interleave,
        "{HEAD}{PROGRAM}{SHAPE}{LISTS}schedule\n1\n0 times 0\nend\n",
        Err((14, BadId)),
    ),
    (
        Interleave,
        "{HEAD}{PROGRAM}{SHAPE}{LISTS}schedule\n0 times 0\n1\nend\n",
        Err((14, BadRange)),
    ),
    (
        Interleave,
        "{HEAD}{PROGRAM}{SHAPE}{LISTS}schedule\n1\ntimes 0\nend\n",
        Err((14, BadId)),
    ),
    // entries
    (
        Replay,
        "{HEAD}{PROGRAM}{SHAPE}journal\nentry 1 0 0 0 0 none\nentry 1 16 0 0 0 none\nend\n",
        Err((10, BadPlace)),
    ),
    (
        Replay,
        "{HEAD}{PROGRAM}{SHAPE}journal\nentry 0 16 0 0 0 none\nentry 0 0 0 0 0 none\nend\n",
        Err((10, BadEntry)),
    ),
    (
        Replay,
        "{HEAD}{PROGRAM}{SHAPE}journal\nentry 1 0 0 0 0 none\nentry 1 0 0 0 0 expand head 6\nend\n",
        Err((10, BadPlace)),
    ),
    (
        Replay,
        "{HEAD}{PROGRAM}{SHAPE}journal\nentry 0 0 0 0 0 expand head 6\nentry 0 0 0 0 0 none\nend\n",
        Err((10, BadRange)),
    ),
    (
        Replay,
        "{HEAD}{PROGRAM}{SHAPE}journal\nentry 0 0 0 1 0 none\nmore\nend\n",
        Err((10, BadEntry)),
    ),
    (
        Replay,
        "{HEAD}{PROGRAM}{SHAPE}journal\nentry 0 0 0 1 0\nmore none\nend\n",
        Err((11, Unexpected)),
    ),
    // what shows that an entry is over: an over-long word or number
    (
        Replay,
        "{HEAD}{PROGRAM}{SHAPE}journal\nentry 0 16 0 0 0 none\nabcdefghijklmnopqrstuvwxy",
        Err((10, BadEntry)),
    ),
    (
        Replay,
        "{HEAD}{PROGRAM}{SHAPE}journal\nentry 1 0 0 0 0 none\n1234567890",
        Err((10, BadPlace)),
    ),
    (
        Replay,
        "{HEAD}{PROGRAM}{SHAPE}journal\nentry 0 0 0 0 0 none\nabcdefghijklmnopqrstuvwxy",
        Err((11, WordTooLong)),
    ),
    // a journal and what stands behind it
    (
        Replay,
        "{HEAD}{PROGRAM}{SHAPE}journal\nentry 0 16 0 0 0 none\nend\nfinal\narea 0 0 0 8\nend\n",
        Err((10, BadEntry)),
    ),
    (
        Replay,
        "{HEAD}{PROGRAM}{SHAPE}journal\nentry 1 0 0 0 0 none\nend\n{TURNS}",
        Err((10, BadPlace)),
    ),
    (
        Replay,
        "{HEAD}{PROGRAM}{SHAPE}{JOURNAL}final\narea 0 0 8 8\nbot 9 3 9 3 0 +\nbot 2 3 2 3 6 +\nend\n",
        Err((14, BadRange)),
    ),
    (
        Replay,
        "{HEAD}{PROGRAM}{SHAPE}{JOURNAL}final\narea 0 0 8 8\nbot 9 3 9 3 0 +\nend\nturns\nmore\n",
        Err((13, OutOfBox)),
    ),
    (
        Replay,
        "{HEAD}{PROGRAM}{SHAPE}{JOURNAL}{FINAL}turns\nturn 0 0 busy spot 10000 3 by 0 0 0 place 0\n\
            turn end\n",
        Err((16, BadRange)),
    ),
    (
        Replay,
        "{HEAD}{PROGRAM}{SHAPE}{JOURNAL}{FINAL}turns\nturn 0 0 done\n\
            turn 0 0 busy spot 10000 3 by 0 0 0 place 0\nend\n",
        Err((17, Unexpected)),
    ),
    (
        Replay,
        "{HEAD}{PROGRAM}{SHAPE}{JOURNAL}{FINAL}turns\nturn 0 0 busy spot 3 - 10000 by $\nend\n",
        Err((16, BadRange)),
    ),
];

/// A bad byte in place of each word that may begin a section or does,
/// and of the one behind the last `end`.
pub static BAD_BYTES: [Row; 14] = [
    (Replay, "$", Err((1, BadByte))),
    (Replay, "{HEAD}$", Err((2, BadByte))),
    (Replay, "{HEAD}{PROGRAM}$", Err((5, BadByte))),
    (Replay, "{HEAD}{PROGRAM}{SHAPE}$", Err((9, BadByte))),
    (Replay, "{HEAD}{PROGRAM}{SHAPE}{LISTS}$", Err((13, BadByte))),
    (
        Replay,
        "{HEAD}{PROGRAM}{SHAPE}{LISTS}{SCHEDULE}$",
        Err((16, BadByte)),
    ),
    (Measure, "{HEAD}{PROGRAM}$", Err((5, BadByte))),
    (Measure, "{HEAD}{PROGRAM}{SHAPE}$", Err((9, BadByte))),
    (
        Measure,
        "{HEAD}{PROGRAM}{SHAPE}{LISTS}$",
        Err((13, BadByte)),
    ),
    (
        Measure,
        "{HEAD}{PROGRAM}{SHAPE}{JOURNAL}$",
        Err((11, BadByte)),
    ),
    (
        Measure,
        "{HEAD}{PROGRAM}{SHAPE}{JOURNAL}{FINAL}$",
        Err((15, BadByte)),
    ),
    (Check, "{HEAD}{PROGRAM}{SHAPE}$", Err((9, BadByte))),
    (Check, "{HEAD}{PROGRAM}{SHAPE}{LISTS}$", Err((13, BadByte))),
    (
        Interleave,
        "{HEAD}{PROGRAM}{SHAPE}{LISTS}{SCHEDULE}$",
        Err((16, BadByte)),
    ),
];
