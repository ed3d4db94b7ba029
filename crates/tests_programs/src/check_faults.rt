//! More texts of programs, and what the rules on names and ranges say of them: nothing,
//! or the line and the kind of the first fault.

use crate::check_examples::Judged;
use text_tokens::RefusalKind::{BadRange, TwiceNamed, UnknownName, WrongType};

/// Numbers, and names that are declared.
pub static DECLARED: [Judged; 26] = [
    ("program\nvar x 255\nend", None),
    ("program\nvar x 256\nend", Some((2, BadRange))),
    ("program\naction a when 65535 = 0\nend", None),
    (
        "program\naction a when\n65536 = 0\nend",
        Some((3, BadRange)),
    ),
    (
        "program\naction a when 0 <\n65536\nend",
        Some((3, BadRange)),
    ),
    (
        "program\naction a when mod6 (\n65536 ) = 0\nend",
        Some((3, BadRange)),
    ),
    ("program\naction a when linked head 5\nend", None),
    (
        "program\naction a when linked head\n6\nend",
        Some((3, BadRange)),
    ),
    ("program\naction a when linked turn tail 0 5\nend", None),
    (
        "program\naction a when linked turn tail 0\n6\nend",
        Some((3, BadRange)),
    ),
    ("program\nvar x 1\nvar x 2\nend", Some((3, TwiceNamed))),
    (
        "program\naction a when true\naction a when true\nend",
        Some((3, TwiceNamed)),
    ),
    // an action may be called as a variable
    ("program\nvar x 1\naction x when x = 0\nend", None),
    ("program\naction a when\na = 0\nend", Some((3, UnknownName))),
    // where a variable is needed
    ("program\naction a when\nx = 0\nend", Some((3, UnknownName))),
    (
        "program\naction a when linked head\nx\nend",
        Some((3, UnknownName)),
    ),
    (
        "program\naction a when head 0 .\nx = 0\nend",
        Some((3, UnknownName)),
    ),
    (
        "program\naction a when true do\nx := 0\nend",
        Some((3, UnknownName)),
    ),
    (
        "program\naction a when true do head 0 .\nx := 0\nend",
        Some((3, UnknownName)),
    ),
    (
        "program\naction a when any p in ports (\np = 0 )\nend",
        Some((3, WrongType)),
    ),
    (
        "program\naction a when any p in ports ( p .\np = 0 )\nend",
        Some((3, WrongType)),
    ),
    (
        "program\naction a when any p in ports ( linked head\np )\nend",
        Some((3, WrongType)),
    ),
    (
        "program\naction a when true do let p := head 0 ;\np := 0\nend",
        Some((3, WrongType)),
    ),
    // where a port is needed
    (
        "program\nvar x 1\naction a when linked\nx\nend",
        Some((4, WrongType)),
    ),
    (
        "program\nvar x 1\naction a when\nx . x = 0\nend",
        Some((4, WrongType)),
    ),
    (
        "program\nvar x 1\naction a when true move expand\nx\nend",
        Some((4, WrongType)),
    ),
];

/// Names that stand for ports, and two faults in either order.
pub static BOUND: [Judged; 31] = [
    (
        "program\naction a when linked\np\nend",
        Some((3, UnknownName)),
    ),
    (
        "program\nvar x 1\naction a when any\nx in ports ( true )\nend",
        Some((4, TwiceNamed)),
    ),
    (
        "program\nvar x 1\naction a when true do let\nx := head 0\nend",
        Some((4, TwiceNamed)),
    ),
    (
        "program\naction a when any p in ports ( all\np in ports ( true ) )\nend",
        Some((3, TwiceNamed)),
    ),
    (
        "program\naction a when 0 = count p in free ( linked first\np in ports ( true ) )\nend",
        Some((3, TwiceNamed)),
    ),
    (
        "program\naction a when true do let p := head 0 ; let\np := head 1\nend",
        Some((3, TwiceNamed)),
    ),
    (
        "program\naction a when true do for p in ports ( true ) do let\np := head 0 od\nend",
        Some((3, TwiceNamed)),
    ),
    (
        "program\naction a when true do for p in ports ( any\np in ports ( true ) ) do let q := p od\nend",
        Some((3, TwiceNamed)),
    ),
    // a name is over behind its parenthesis, its statements or its list
    (
        "program\naction a when any p in ports ( true ) and linked\np\nend",
        Some((3, UnknownName)),
    ),
    (
        "program\naction a when any p in ports ( true ) do let q :=\np\nend",
        Some((3, UnknownName)),
    ),
    (
        "program\naction a when true do let p := turn\np 1\nend",
        Some((3, UnknownName)),
    ),
    (
        "program\naction a when true do for p in ports ( true ) do let q := p od ; let r :=\np\nend",
        Some((3, UnknownName)),
    ),
    (
        "program\naction a when true do if true then let p := head 0 else let q :=\np fi\nend",
        Some((3, UnknownName)),
    ),
    (
        "program\naction a when true do if true then let p := head 0 fi move expand\np\nend",
        Some((3, UnknownName)),
    ),
    (
        "program\naction a when true do let p := head 0\naction b when true move expand\np\nend",
        Some((4, UnknownName)),
    ),
    (
        "program\naction a when true do let p := head 0 move expand p\nend",
        None,
    ),
    // and may then be bound again
    (
        "program\naction a when any p in ports ( true ) or all p in free ( linked p )\nend",
        None,
    ),
    (
        "program\naction a when any p in ports ( true ) do let p := head 0 move expand p\nend",
        None,
    ),
    (
        "program\naction a when true do if true then \
        let p := head 0 else let p := head 1 fi ; let p := head 2\nend",
        None,
    ),
    (
        "program\naction a when true do let q := first q in ports ( linked q ) move push q\nend",
        None,
    ),
    // the first of two in the text
    ("program\nvar x 256\nvar x 1\nend", Some((2, BadRange))),
    ("program\nvar x 1\nvar x\n256\nend", Some((3, TwiceNamed))),
    (
        "program\nvar x 1\naction a when\ny = 0 and\nx = 65536\nend",
        Some((4, UnknownName)),
    ),
    (
        "program\nvar x 1\naction a when\nx = 65536 and\ny = 0\nend",
        Some((4, BadRange)),
    ),
    (
        "program\naction a when\n65536 =\nx\nend",
        Some((3, BadRange)),
    ),
    (
        "program\naction a when\nx =\n65536\nend",
        Some((3, UnknownName)),
    ),
    (
        "program\nvar x 1\naction a when any\nx in ports (\ny = 0 )\nend",
        Some((4, TwiceNamed)),
    ),
    (
        "program\naction a when linked turn\np\n6\nend",
        Some((3, UnknownName)),
    ),
    (
        "program\naction a when true do head\n6 .\nx := 0\nend",
        Some((3, BadRange)),
    ),
    (
        "program\naction a when true do\nx :=\n65536\nend",
        Some((3, UnknownName)),
    ),
    (
        "program\nvar x 1\naction a when linked\nx\naction a when true\nend",
        Some((4, WrongType)),
    ),
];

/// Names behind the end of what binds them, before it, or of the other kind.
pub static USED: [Judged; 17] = [
    // a name is not in force before its `let`
    (
        "program\nvar x 1\naction a when true do\np . x := 1 ; let p := head 0\nend",
        Some((4, UnknownName)),
    ),
    (
        "program\naction a when linked\np do let p := head 0\nend",
        Some((3, UnknownName)),
    ),
    // nor behind the end of a `count`, a `first`, a `for`
    (
        "program\nvar x 1\naction a when count p in ports ( true ) = x and linked\np\nend",
        Some((4, UnknownName)),
    ),
    (
        "program\naction a when linked turn first p in ports ( true ) 1 and linked\np\nend",
        Some((3, UnknownName)),
    ),
    (
        "program\naction a when true do for p in ports ( true ) do let q := p od move push\np\nend",
        Some((3, UnknownName)),
    ),
    // one that is in force is bound again
    (
        "program\nvar x 1\naction a when true do for p in ports ( true ) do x := count\n\
        p in ports ( true ) od\nend",
        Some((4, TwiceNamed)),
    ),
    (
        "program\naction a when true do let p := head 0 ; for\np in ports ( true ) do let q := p od\nend",
        Some((3, TwiceNamed)),
    ),
    // a name for a port in a sum
    (
        "program\naction a when any p in ports ( mod6 (\np ) = 0 )\nend",
        Some((3, WrongType)),
    ),
    (
        "program\nvar x 1\naction a when true do for p in ports ( true ) do x :=\np od\nend",
        Some((4, WrongType)),
    ),
    // a variable as a port
    (
        "program\nvar x 1\naction a when linked turn\nx 1\nend",
        Some((4, WrongType)),
    ),
    (
        "program\nvar x 1\naction a when true do let q :=\nx\nend",
        Some((4, WrongType)),
    ),
    (
        "program\nvar x 1\naction a when true do\nx . x := 1\nend",
        Some((4, WrongType)),
    ),
    (
        "program\nvar x 1\naction a when true move pull\nx\nend",
        Some((4, WrongType)),
    ),
    // the name of an action is no port's, and may be bound
    (
        "program\naction a when linked\na\nend",
        Some((3, UnknownName)),
    ),
    (
        "program\naction a when any a in ports ( linked a )\nend",
        None,
    ),
    // a name is bound before its port is judged
    (
        "program\nvar x 1\naction a when true do let\nx :=\nx\nend",
        Some((4, TwiceNamed)),
    ),
    (
        "program\naction a when true do let p := tail\n9\nend",
        Some((3, BadRange)),
    ),
];
