//! Texts of programs, and what the rules on names and ranges say of them.
//! Each token that may be told stands on a line of its own.

use text_tokens::RefusalKind::{self, BadRange, TwiceNamed, UnknownName, WrongType};

/// A text, and the line and the kind of its first fault if it has one.
pub type Judged = (&'static str, Option<(u32, RefusalKind)>);

/// Names and numbers in expressions.
pub static EXPRESSIONS: [Judged; 33] = [
    // a name in a sum
    ("program var x 1\naction a when\nx < 65535 end", None),
    (
        "program var x 1\naction a when\np < 65535 end",
        Some((3, UnknownName)),
    ),
    (
        "program var x 1\naction a when any\np in ports (\np < 65535 ) end",
        Some((4, WrongType)),
    ),
    (
        "program var x 1\naction a when mod6 (\nq ) < 65535 end",
        Some((3, UnknownName)),
    ),
    // behind a dot
    (
        "program var x 1\naction a when first\np in ports ( true ) .\nx < 65535 end",
        None,
    ),
    (
        "program var x 1\naction a when first\np in ports ( true ) .\np < 65535 end",
        Some((4, UnknownName)),
    ),
    (
        "program var x 1\naction a when any\np in ports (\np .\np < 65535 ) end",
        Some((5, WrongType)),
    ),
    (
        "program var x 1\naction a when\nq .\nq < 65535 end",
        Some((3, UnknownName)),
    ),
    // a variable, or a name that is not known, as a port
    (
        "program var x 1\naction a when\nx .\nx < 65535 end",
        Some((3, WrongType)),
    ),
    (
        "program var x 1\naction a when linked\nx end",
        Some((3, WrongType)),
    ),
    (
        "program var x 1\naction a when peer_dir\nx < 65535 end",
        Some((3, WrongType)),
    ),
    (
        "program var x 1\naction a when true move expand\nx end",
        Some((3, WrongType)),
    ),
    (
        "program var x 1\naction a when peer_dir\nq < 65535 end",
        Some((3, UnknownName)),
    ),
    (
        "program var x 1\naction a when true move expand\nq end",
        Some((3, UnknownName)),
    ),
    // numbers, directions and turns
    ("program var x 1\naction a when\n65535 < 65535 end", None),
    (
        "program var x 1\naction a when\n65536 < 65535 end",
        Some((3, BadRange)),
    ),
    (
        "program var x 1\naction a when mod6 (\n65536 ) < 65535 end",
        Some((3, BadRange)),
    ),
    ("program var x 1\naction a when linked head\n5 end", None),
    (
        "program var x 1\naction a when linked head\n6 end",
        Some((3, BadRange)),
    ),
    (
        "program var x 1\naction a when linked turn head\n0\n5 end",
        None,
    ),
    (
        "program var x 1\naction a when linked turn head\n0\n6 end",
        Some((4, BadRange)),
    ),
    (
        "program var x 1\naction a when linked turn head\n6\n6 end",
        Some((3, BadRange)),
    ),
    // a name in place of a direction
    ("program var x 1\naction a when linked head\nx end", None),
    (
        "program var x 1\naction a when linked head\nq end",
        Some((3, UnknownName)),
    ),
    (
        "program var x 1\naction a when any\np in ports ( linked head\np ) end",
        Some((4, WrongType)),
    ),
    // the name of a quantifier
    (
        "program var x 1\naction a when any\np in ports ( linked\np ) end",
        None,
    ),
    (
        "program var x 1\naction a when any\np in ports ( any\nq in ports ( linked\np ) ) end",
        None,
    ),
    (
        "program var x 1\naction a when any\np in ports ( any\np in ports ( true ) ) end",
        Some((4, TwiceNamed)),
    ),
    (
        "program var x 1\naction a when any\nx in ports ( true ) end",
        Some((3, TwiceNamed)),
    ),
    // a name whose parenthesis is over, and those of `count` and `first`
    (
        "program var x 1\naction a when any\np in ports ( true ) and linked\np end",
        Some((4, UnknownName)),
    ),
    (
        "program var x 1\naction a when count\np in ports ( linked\nq ) < 65535 end",
        Some((4, UnknownName)),
    ),
    (
        "program var x 1\naction a when count\nx in ports ( true ) < 65535 end",
        Some((3, TwiceNamed)),
    ),
    (
        "program var x 1\naction a when linked first\nx in ports ( true ) end",
        Some((3, TwiceNamed)),
    ),
];

/// Names in statements and movements.
pub static STATEMENTS: [Judged; 21] = [
    // a name that is written
    (
        "program var x 1\naction a when true do\nx := inner end",
        None,
    ),
    (
        "program var x 1\naction a when true do\nq := inner end",
        Some((3, UnknownName)),
    ),
    (
        "program var x 1\naction a when true do let\nq := head\n0 ;\nq := inner end",
        Some((5, WrongType)),
    ),
    (
        "program var x 1\naction a when true do let\nq := head\n0 ;\nq .\nq := inner end",
        Some((6, WrongType)),
    ),
    // the name of a `let`
    (
        "program var x 1\naction a when true do let\nq := first\nq in ports ( linked\nq ) end",
        None,
    ),
    (
        "program var x 1\naction a when true do let\nq :=\nq end",
        Some((4, UnknownName)),
    ),
    (
        "program var x 1\naction a when true do let\nq := head\n0 ; let\nq := head\n0 end",
        Some((5, TwiceNamed)),
    ),
    (
        "program var x 1\naction a when true do let\nx := head\n6 end",
        Some((3, TwiceNamed)),
    ),
    (
        "program var x 1\naction a when true do\nq .\nx := inner ; let\nq := head\n0 end",
        Some((3, UnknownName)),
    ),
    // in the movement
    (
        "program var x 1\naction a when true do let\nq := head\n0 move push\nq end",
        None,
    ),
    (
        "program var x 1\naction a when true do let\nq := head\n0 move push\np end",
        Some((5, UnknownName)),
    ),
    (
        "program var x 1\naction a when true do let\nq := head\n0 move push first\nq in ports ( true ) end",
        Some((5, TwiceNamed)),
    ),
    // a `let` whose list is over
    (
        "program var x 1\naction a when true do if true then let\n\
        q := head\n0 else let\nq := head\n0 fi ;\nq .\nx := inner end",
        Some((7, UnknownName)),
    ),
    (
        "program var x 1\naction a when true do if true then let\nq := head\n0 else\nq .\nx := inner fi end",
        Some((5, UnknownName)),
    ),
    (
        "program var x 1\naction a when true do if true then let\n\
        q := head\n0 else\nx := inner fi move push\nq end",
        Some((6, UnknownName)),
    ),
    // the name of a `for`
    (
        "program var x 1\naction a when true do for\np in ports ( linked\np ) do\np .\nx := inner od end",
        None,
    ),
    (
        "program var x 1\naction a when true do for\nx in ports ( true ) do\nx := inner od end",
        Some((3, TwiceNamed)),
    ),
    (
        "program var x 1\naction a when true do for\np in ports ( true ) do\np := inner od end",
        Some((4, WrongType)),
    ),
    (
        "program var x 1\naction a when true do for\np in ports ( true ) do let\np := head\n0 od end",
        Some((4, TwiceNamed)),
    ),
    // behind its end
    (
        "program var x 1\naction a when true do for\n\
        p in ports ( true ) do\nx := inner od ;\np .\nx := inner end",
        Some((5, UnknownName)),
    ),
    (
        "program var x 1\naction a when true do for\np in ports ( true ) do\nx := inner od move push\np end",
        Some((5, UnknownName)),
    ),
];

/// Variables and actions, whose names may be the same.
pub static DECLARATIONS: [Judged; 10] = [
    // variables
    (
        "program var x\n255 var\np\n255 action\nx when true action\np when true end",
        None,
    ),
    (
        "program var x\n255 var\nx\n255 action\nx when true action\np when true end",
        Some((3, TwiceNamed)),
    ),
    (
        "program var x\n256 var\np\n255 action\nx when true action\np when true end",
        Some((2, BadRange)),
    ),
    (
        "program var x\n255 var\np\n256 action\nx when true action\np when true end",
        Some((4, BadRange)),
    ),
    // two faults
    (
        "program var x\n256 var\nx\n255 action\nx when true action\np when true end",
        Some((2, BadRange)),
    ),
    (
        "program var x\n255 var\nx\n256 action\nx when true action\np when true end",
        Some((3, TwiceNamed)),
    ),
    (
        "program var x\n255 var\np\n256 action\nx when true action\nx when true end",
        Some((4, BadRange)),
    ),
    // actions
    (
        "program var x\n1 var\np\n1 action\nq when true action\nq when true end",
        Some((6, TwiceNamed)),
    ),
    (
        "program var x\n1 var\np\n1 action\nq when linked\nq action\nq when true end",
        Some((6, UnknownName)),
    ),
    (
        "program var x\n1 var\np\n1 action\nq when linked\np action\nx when true end",
        Some((6, WrongType)),
    ),
];
