//! Headers and programs, and the limits of programs.

use crate::pieces::Row;
use shape_files::Form::{Check, Run};
use text_tokens::RefusalKind::{
    BadByte, BadRange, TooDeep, TooMany, Truncated, TwiceNamed, Unexpected, UnknownName,
    WordTooLong, WrongType,
};

/// Headers, and programs with their rules.
pub static HEADERS_AND_PROGRAMS: [Row; 34] = [
    (Check, "amoebot 2\n{PROGRAM}", Ok([1, -1, -1, -1, -1, -1])),
    (Check, "amoebot 02\n{PROGRAM}", Ok([1, -1, -1, -1, -1, -1])),
    (Check, "amoebot 4\n{PROGRAM}", Err((1, BadRange))),
    (Check, "amoebot 0\n{PROGRAM}", Err((1, BadRange))),
    (Check, "amoebot\n4\n{PROGRAM}", Err((2, BadRange))),
    (Check, "amoebot\n1\n{PROGRAM}", Ok([1, -1, -1, -1, -1, -1])),
    (Check, "amoebot 01\n{PROGRAM}", Ok([1, -1, -1, -1, -1, -1])),
    (
        Check,
        "amoebot 000000001\n{PROGRAM}",
        Ok([1, -1, -1, -1, -1, -1]),
    ),
    (
        Check,
        "amoebot 0000000001\n{PROGRAM}",
        Err((1, WordTooLong)),
    ),
    (Check, "Amoebot 1\n{PROGRAM}", Err((1, Unexpected))),
    (Check, "amoebot one\n{PROGRAM}", Err((1, Unexpected))),
    (Check, "amoebot - 1\n{PROGRAM}", Err((1, Unexpected))),
    (Check, "1 amoebot\n{PROGRAM}", Err((1, Unexpected))),
    (
        Check,
        "# c\namoebot 1\n{PROGRAM}",
        Ok([1, -1, -1, -1, -1, -1]),
    ),
    (Check, "amoebot 1.\n{PROGRAM}", Err((1, Unexpected))),
    (Check, "amoebot $\n{PROGRAM}", Err((1, BadByte))),
    (Check, "amoebot", Err((1, Truncated))),
    (Check, "\n\namoebot", Err((3, Truncated))),
    (Check, "amoebot {PROGRAM}", Err((1, Unexpected))),
    (Check, "{HEAD}program\nend\n", Ok([0, -1, -1, -1, -1, -1])),
    (
        Check,
        "{HEAD}program\nvar m 255\nend\n",
        Ok([0, -1, -1, -1, -1, -1]),
    ),
    (Check, "{HEAD}program\nvar m 256\nend\n", Err((3, BadRange))),
    (
        Check,
        "{HEAD}program\nvar m 3\nvar m 4\nend\n",
        Err((4, TwiceNamed)),
    ),
    (
        Check,
        "{HEAD}program\naction a when x = 0\nend\n",
        Err((3, UnknownName)),
    ),
    (
        Check,
        "{HEAD}program\nvar m 3\naction a when linked m\nend\n",
        Err((4, WrongType)),
    ),
    (
        Check,
        "{HEAD}program\naction a when true\naction a when true\nend\n",
        Err((4, TwiceNamed)),
    ),
    (Check, "{HEAD}program\nvar m 256\n", Err((4, Truncated))),
    (
        Check,
        "{HEAD}program\nvar m 256\nvar\nend\n",
        Err((5, Unexpected)),
    ),
    (
        Check,
        "{HEAD}program\nvar m 256\nend\n$",
        Err((3, BadRange)),
    ),
    (
        Check,
        "{HEAD}program\nvar m 256\nend\nfinal",
        Err((3, BadRange)),
    ),
    (
        Run,
        "{HEAD}program\nvar m 256\nend\njournal",
        Err((3, BadRange)),
    ),
    (
        Check,
        "{HEAD}program\nvar m 256\nvar m 3\nend\n",
        Err((3, BadRange)),
    ),
    (
        Check,
        "{HEAD}program\nvar m 3\nvar m 256\nend\n",
        Err((4, TwiceNamed)),
    ),
    (Run, "{HEAD}program\nshape\n", Err((3, Unexpected))),
];

/// The document of no token but so many bytes, and limits of programs just kept and just passed.
pub static PROGRAM_LIMITS: [Row; 38] = [
    (Run, "{1048576: }", Err((1, Truncated))),
    (Run, "{1000:\n}", Err((1001, Truncated))),
    // variables and actions
    (
        Check,
        "{HEAD}program\nvar a 1\nvar b 1\nvar c 1\nvar d 1\nvar e 1\nvar f 1\nvar g 1\nvar h 1\nend\n",
        Ok([0, -1, -1, -1, -1, -1]),
    ),
    (
        Check,
        "{HEAD}program\n{9:var a 1\n}end\n",
        Err((11, TooMany)),
    ),
    (
        Check,
        "{HEAD}program\n{8:var a 1\n}end\n",
        Err((4, TwiceNamed)),
    ),
    (
        Check,
        "{HEAD}program\n{32:action a when true\n}end\n",
        Err((4, TwiceNamed)),
    ),
    (
        Check,
        "{HEAD}program\n{33:action a when true\n}end\n",
        Err((35, TooMany)),
    ),
    // levels
    (
        Check,
        "{HEAD}program\naction a when\n{32:(\n}true\n{32:)\n}end\n",
        Ok([1, -1, -1, -1, -1, -1]),
    ),
    (
        Check,
        "{HEAD}program\naction a when\n{33:(\n}true\n{33:)\n}end\n",
        Err((36, TooDeep)),
    ),
    (
        Check,
        "{HEAD}program\naction a when\n{32:not\n}true\nend\n",
        Ok([1, -1, -1, -1, -1, -1]),
    ),
    (
        Check,
        "{HEAD}program\naction a when\n{33:not\n}true\nend\n",
        Err((36, TooDeep)),
    ),
    // elements, terms and statements
    (
        Check,
        "{HEAD}program\naction a when\ntrue\n{63:or true\n}end\n",
        Ok([1, -1, -1, -1, -1, -1]),
    ),
    (
        Check,
        "{HEAD}program\naction a when\ntrue\n{63:or true\n}or\ntrue\nend\n",
        Err((69, TooMany)),
    ),
    (
        Check,
        "{HEAD}program\naction a when\ntrue\n{63:and true\n}end\n",
        Ok([1, -1, -1, -1, -1, -1]),
    ),
    (
        Check,
        "{HEAD}program\naction a when\ntrue\n{63:and true\n}and\ntrue\nend\n",
        Err((69, TooMany)),
    ),
    (
        Check,
        "{HEAD}program\naction a when\n0\n{63:+ 1\n}= 63\nend\n",
        Ok([1, -1, -1, -1, -1, -1]),
    ),
    (
        Check,
        "{HEAD}program\naction a when\n0\n{63:+ 1\n}-\n1\n= 62\nend\n",
        Err((69, TooMany)),
    ),
    (
        Check,
        "{HEAD}program var m 1\naction a when true do\nm := 0\n{63:; m := 0\n}end\n",
        Ok([1, -1, -1, -1, -1, -1]),
    ),
    (
        Check,
        "{HEAD}program var m 1\naction a when true do\nm := 0\n{63:; m := 0\n};\nm := 0\nend\n",
        Err((69, TooMany)),
    ),
    // the first token of one element too many
    (
        Check,
        "{HEAD}program\naction a when\n{32:(\n}true\n{63:or true\n}or\n(\n",
        Err((101, TooDeep)),
    ),
    (
        Check,
        "{HEAD}program\naction a when\n{31:(\n}true\n{63:or true\n}or\n(\n",
        Err((100, TooMany)),
    ),
    (
        Check,
        "{HEAD}program\naction a when\ntrue\n{63:or true\n}or\nthen\n",
        Err((69, Unexpected)),
    ),
    (
        Check,
        "{HEAD}program\naction a when\ntrue\n{63:or true\n}or\n",
        Err((69, Truncated)),
    ),
    (
        Check,
        "{HEAD}program\naction a when\ntrue\n{63:or true\n}or\n$\n",
        Err((69, BadByte)),
    ),
    // names in force
    (
        Check,
        "{HEAD}program\naction a when\nany p in ports (\nany q in ports (\nany r in free (\n\
            all s in ports (\ntrue\n{4:)\n}end\n",
        Ok([1, -1, -1, -1, -1, -1]),
    ),
    (
        Check,
        "{HEAD}program\naction a when\nany p in ports (\nany q in ports (\nany r in free (\n\
            all s in ports (\nany\nt in ports ( true )\n{4:)\n}end\n",
        Err((9, TooMany)),
    ),
    (
        Check,
        "{HEAD}program\naction a when\n{4:any p in ports (\n}true\n{4:)\n}end\n",
        Err((5, TwiceNamed)),
    ),
    (
        Check,
        "{HEAD}program\naction a when\n{5:any p in ports (\n}true\n{5:)\n}end\n",
        Err((8, TooMany)),
    ),
    (
        Check,
        "{HEAD}program\n\
            action a when true do let p := head 0 ; let q := head 0 ; let r := head 0 ; let s := head 0\n\
            end\n",
        Ok([1, -1, -1, -1, -1, -1]),
    ),
    (
        Check,
        "{HEAD}program\n\
            action a when true do let p := head 0 ; let q := head 0 ; let r := head 0 ; let s := head 0\n\
            ; let\nt := head 0\nend\n",
        Err((5, TooMany)),
    ),
    (
        Check,
        "{HEAD}program\naction a when true do let q := first q in ports ( true )\nend\n",
        Ok([1, -1, -1, -1, -1, -1]),
    ),
    // numbers
    (
        Check,
        "{HEAD}program\naction a when\n65535 = 0\nend\n",
        Ok([1, -1, -1, -1, -1, -1]),
    ),
    (
        Check,
        "{HEAD}program\naction a when\n65536 = 0\nend\n",
        Err((4, BadRange)),
    ),
    (
        Check,
        "{HEAD}program\naction a when linked\nhead 5\nend\n",
        Ok([1, -1, -1, -1, -1, -1]),
    ),
    (
        Check,
        "{HEAD}program\naction a when linked\nhead 6\nend\n",
        Err((4, BadRange)),
    ),
    (
        Check,
        "{HEAD}program\naction a when linked turn\nhead 0 5\nend\n",
        Ok([1, -1, -1, -1, -1, -1]),
    ),
    (
        Check,
        "{HEAD}program\naction a when linked turn\nhead 0 6\nend\n",
        Err((4, BadRange)),
    ),
    (
        Check,
        "{HEAD}program\naction a when linked head 0 0\nend\n",
        Err((3, Unexpected)),
    ),
];
