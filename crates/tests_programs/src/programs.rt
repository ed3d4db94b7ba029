//! Small programs, each from a shape, with what each turn does and the shape behind them,
//! written down beforehand.
//!
//! Amoebot 0 acts.
//! Where nothing else is said it is contracted on (3, 3) and goes round as the plane does.
//! Then (4, 3), (3, 4) and (2, 4) are behind its ports `head 0`, `head 1` and `head 2`.

use crate::fixtures::{Body, Told, Turn, runs, world_of};
use Told::{Done, Failed, Idle};
use amoebot_state::Chir::{Minus, Plus};
use amoebot_state::Failure::{
    Edge, NoChoice, NoNeighbour, NoPort, NotContracted, NotExpanded, Occupied, OutOfRange,
    PeerNotContracted, PeerNotExpanded, WouldSplit,
};
use std::alloc::Global;
use std::process::Abort;
use std::test::Fail;

/// A program, the shape at the start, the turns, and the shape behind them.
pub type Run = (
    &'static str,
    &'static [Body],
    &'static [Turn],
    &'static [Body],
);

/// Expansions, pushes and pulls, and no movement.
static MOVEMENTS: [Run; 8] = [
    (
        "program action out when contracted move expand head 0 end",
        &[((2, 3), (2, 3), 0, Plus, [0, 0, 0])],
        &[
            (0, Done("0 expand head 0 spot 3 3 0 body 0 3 3 2 3 0 +")),
            (0, Idle),
        ],
        &[((3, 3), (2, 3), 0, Plus, [0, 0, 0])],
    ),
    // it stands at the edge of the area
    (
        "program action out when contracted move expand head 0 end",
        &[((7, 3), (7, 3), 0, Plus, [0, 0, 0])],
        &[(0, Failed(Edge))],
        &[((7, 3), (7, 3), 0, Plus, [0, 0, 0])],
    ),
    // the movement fails, and what was written before it is undone
    (
        "program var m 3 action a when true do m := 2 move expand head 0 end",
        &[
            ((2, 3), (2, 3), 0, Plus, [0, 0, 0]),
            ((3, 3), (3, 3), 0, Plus, [0, 0, 0]),
        ],
        &[(0, Failed(Occupied))],
        &[
            ((2, 3), (2, 3), 0, Plus, [0, 0, 0]),
            ((3, 3), (3, 3), 0, Plus, [0, 0, 0]),
        ],
    ),
    // it goes round against the plane: its local direction 1 is the global direction 4
    (
        "program action a when contracted move expand head 1 end",
        &[((2, 3), (2, 3), 5, Minus, [0, 0, 0])],
        &[(0, Done("0 expand head 1 spot 2 2 0 body 0 2 2 2 3 5 -"))],
        &[((2, 2), (2, 3), 5, Minus, [0, 0, 0])],
    ),
    (
        "program action a when true move push head 0 end",
        &[
            ((2, 3), (2, 3), 0, Plus, [0, 0, 0]),
            ((3, 3), (4, 3), 0, Plus, [0, 0, 0]),
        ],
        &[(
            0,
            Done("0 push head 0 spot 3 3 0 body 0 3 3 2 3 0 + body 1 4 3 4 3 0 +"),
        )],
        &[
            ((3, 3), (2, 3), 0, Plus, [0, 0, 0]),
            ((4, 3), (4, 3), 0, Plus, [0, 0, 0]),
        ],
    ),
    (
        "program action a when true move push head 0 end",
        &[
            ((2, 3), (2, 3), 0, Plus, [0, 0, 0]),
            ((3, 3), (3, 3), 0, Plus, [0, 0, 0]),
        ],
        &[(0, Failed(PeerNotExpanded))],
        &[
            ((2, 3), (2, 3), 0, Plus, [0, 0, 0]),
            ((3, 3), (3, 3), 0, Plus, [0, 0, 0]),
        ],
    ),
    (
        "program action a when true move pull tail 3 end",
        &[
            ((3, 3), (2, 3), 0, Plus, [0, 0, 0]),
            ((1, 3), (1, 3), 0, Plus, [0, 0, 0]),
        ],
        &[(
            0,
            Done("0 pull tail 3 spot 2 3 1 body 0 3 3 3 3 0 + body 1 2 3 1 3 0 +"),
        )],
        &[
            ((3, 3), (3, 3), 0, Plus, [0, 0, 0]),
            ((2, 3), (1, 3), 0, Plus, [0, 0, 0]),
        ],
    ),
    (
        "program action a when true end",
        &[((3, 3), (3, 3), 0, Plus, [0, 0, 0])],
        &[(0, Done("0 none")), (0, Done("0 none"))],
        &[((3, 3), (3, 3), 0, Plus, [0, 0, 0])],
    ),
];

/// Contractions, and what else the guard of connectivity might stand before.
static GUARDED: [Run; 5] = [
    // around (2, 3) the directions 0 and 3 alone are occupied, which is no arc
    (
        "program guard on action a when expanded move contract tail end",
        &[
            ((3, 3), (2, 3), 0, Plus, [0, 0, 0]),
            ((1, 3), (1, 3), 0, Plus, [0, 0, 0]),
        ],
        &[(0, Failed(WouldSplit))],
        &[
            ((3, 3), (2, 3), 0, Plus, [0, 0, 0]),
            ((1, 3), (1, 3), 0, Plus, [0, 0, 0]),
        ],
    ),
    (
        "program guard off action a when expanded move contract tail end",
        &[
            ((3, 3), (2, 3), 0, Plus, [0, 0, 0]),
            ((1, 3), (1, 3), 0, Plus, [0, 0, 0]),
        ],
        &[(0, Done("0 contract tail spot 2 3 empty body 0 3 3 3 3 0 +"))],
        &[
            ((3, 3), (3, 3), 0, Plus, [0, 0, 0]),
            ((1, 3), (1, 3), 0, Plus, [0, 0, 0]),
        ],
    ),
    // the head is left, and the guard sees the one arc of the tail
    (
        "program guard on action a when true move contract head end",
        &[((3, 3), (2, 3), 0, Plus, [0, 0, 0])],
        &[
            (0, Done("0 contract head spot 3 3 empty body 0 2 3 2 3 0 +")),
            (0, Failed(NotExpanded)),
        ],
        &[((2, 3), (2, 3), 0, Plus, [0, 0, 0])],
    ),
    // the guard does not stand before a pull
    (
        "program guard on action a when true move pull tail 3 end",
        &[
            ((3, 3), (2, 3), 0, Plus, [0, 0, 0]),
            ((1, 3), (1, 3), 0, Plus, [0, 0, 0]),
            ((2, 4), (2, 4), 0, Plus, [0, 0, 0]),
        ],
        &[(
            0,
            Done("0 pull tail 3 spot 2 3 1 body 0 3 3 3 3 0 + body 1 2 3 1 3 0 +"),
        )],
        &[
            ((3, 3), (3, 3), 0, Plus, [0, 0, 0]),
            ((2, 3), (1, 3), 0, Plus, [0, 0, 0]),
            ((2, 4), (2, 4), 0, Plus, [0, 0, 0]),
        ],
    ),
    // nor before a push: around (3, 3), which the neighbour leaves,
    // the directions 0 and 3 alone are occupied
    (
        "program guard on action a when true move push head 0 end",
        &[
            ((2, 3), (2, 3), 0, Plus, [0, 0, 0]),
            ((3, 3), (4, 3), 0, Plus, [0, 0, 0]),
        ],
        &[(
            0,
            Done("0 push head 0 spot 3 3 0 body 0 3 3 2 3 0 + body 1 4 3 4 3 0 +"),
        )],
        &[
            ((3, 3), (2, 3), 0, Plus, [0, 0, 0]),
            ((4, 3), (4, 3), 0, Plus, [0, 0, 0]),
        ],
    ),
];

/// Movements without what each of them needs.
static IN_VAIN: [Run; 7] = [
    (
        "program action a when true move pull tail 3 end",
        &[
            ((3, 3), (2, 3), 0, Plus, [0, 0, 0]),
            ((1, 3), (0, 3), 0, Plus, [0, 0, 0]),
        ],
        &[(0, Failed(PeerNotContracted))],
        &[
            ((3, 3), (2, 3), 0, Plus, [0, 0, 0]),
            ((1, 3), (0, 3), 0, Plus, [0, 0, 0]),
        ],
    ),
    (
        "program action a when true move pull tail 3 end",
        &[((3, 3), (2, 3), 0, Plus, [0, 0, 0])],
        &[(0, Failed(NoNeighbour))],
        &[((3, 3), (2, 3), 0, Plus, [0, 0, 0])],
    ),
    (
        "program action a when true move pull tail 3 end",
        &[((3, 3), (3, 3), 0, Plus, [0, 0, 0])],
        &[(0, Failed(NotExpanded))],
        &[((3, 3), (3, 3), 0, Plus, [0, 0, 0])],
    ),
    (
        "program action a when true move push tail 0 end",
        &[((3, 3), (3, 3), 0, Plus, [0, 0, 0])],
        &[(0, Failed(NoPort))],
        &[((3, 3), (3, 3), 0, Plus, [0, 0, 0])],
    ),
    (
        "program action a when true move expand head 0 end",
        &[((3, 3), (2, 3), 0, Plus, [0, 0, 0])],
        &[(0, Failed(NotContracted))],
        &[((3, 3), (2, 3), 0, Plus, [0, 0, 0])],
    ),
    // the port of a movement is evaluated before what the movement needs
    (
        "program var m 9 action a when true move expand head m end",
        &[((3, 3), (2, 3), 0, Plus, [7, 0, 0])],
        &[(0, Failed(NoPort))],
        &[((3, 3), (2, 3), 0, Plus, [7, 0, 0])],
    ),
    (
        "program action a when true move push first p in ports ( true ) end",
        &[((3, 3), (3, 3), 0, Plus, [0, 0, 0])],
        &[(0, Failed(NoChoice))],
        &[((3, 3), (3, 3), 0, Plus, [0, 0, 0])],
    ),
];

/// Writes, and the values that they leave.
static VALUES: [Run; 6] = [
    // both ports lead to (2, 4)
    (
        "program var m 3 action a when true do head 2 . m := 1 ; tail 1 . m := head 2 . m + 1 end",
        &[
            ((3, 3), (2, 3), 0, Plus, [0, 0, 0]),
            ((2, 4), (2, 4), 0, Plus, [0, 0, 0]),
        ],
        &[(0, Done("0 none body 1 2 4 2 4 0 + 2"))],
        &[
            ((3, 3), (2, 3), 0, Plus, [0, 0, 0]),
            ((2, 4), (2, 4), 0, Plus, [2, 0, 0]),
        ],
    ),
    (
        "program var m 4 action a when true do m := 5 end",
        &[((2, 3), (2, 3), 0, Plus, [0, 0, 0])],
        &[(0, Failed(OutOfRange))],
        &[((2, 3), (2, 3), 0, Plus, [0, 0, 0])],
    ),
    (
        "program var m 4 action a when true do m := m - 1 end",
        &[((2, 3), (2, 3), 0, Plus, [1, 0, 0])],
        &[
            (0, Done("0 none body 0 2 3 2 3 0 + 0")),
            (0, Failed(OutOfRange)),
        ],
        &[((2, 3), (2, 3), 0, Plus, [0, 0, 0])],
    ),
    // the second variable, and the third
    (
        "program var k 1 var m 2 var n 3 action a when true do m := 2 ; n := 3 end",
        &[((2, 3), (2, 3), 0, Plus, [1, 0, 0])],
        &[(0, Done("0 none body 0 2 3 2 3 0 + 1 2 3"))],
        &[((2, 3), (2, 3), 0, Plus, [1, 2, 3])],
    ),
    // what stands there already is no change
    (
        "program var m 4 action a when true do m := 3 end",
        &[((2, 3), (2, 3), 0, Plus, [3, 0, 0])],
        &[(0, Done("0 none"))],
        &[((2, 3), (2, 3), 0, Plus, [3, 0, 0])],
    ),
    (
        "program var m 4 action a when true do m := 1 ; m := 3 end",
        &[((2, 3), (2, 3), 0, Plus, [3, 0, 0])],
        &[(0, Done("0 none"))],
        &[((2, 3), (2, 3), 0, Plus, [3, 0, 0])],
    ),
];

/// More writes, and the order of their failures.
static WRITES: [Run; 7] = [
    // a later write fails, and the earlier one is undone
    (
        "program var m 4 action a when true do m := 1 ; m := 5 end",
        &[((2, 3), (2, 3), 0, Plus, [0, 0, 0])],
        &[(0, Failed(OutOfRange))],
        &[((2, 3), (2, 3), 0, Plus, [0, 0, 0])],
    ),
    // the failure of the port comes first, then that of the sum, then those of the write
    (
        "program var m 9 action a when true do head m . m := inner end",
        &[((3, 3), (3, 3), 0, Plus, [7, 0, 0])],
        &[(0, Failed(NoPort))],
        &[((3, 3), (3, 3), 0, Plus, [7, 0, 0])],
    ),
    (
        "program var m 9 action a when true do tail 0 . m := inner end",
        &[((3, 3), (3, 3), 0, Plus, [7, 0, 0])],
        &[(0, Failed(NotExpanded))],
        &[((3, 3), (3, 3), 0, Plus, [7, 0, 0])],
    ),
    (
        "program var m 9 action a when true do tail 0 . m := 10 end",
        &[((3, 3), (3, 3), 0, Plus, [7, 0, 0])],
        &[(0, Failed(NoPort))],
        &[((3, 3), (3, 3), 0, Plus, [7, 0, 0])],
    ),
    (
        "program var m 9 action a when true do head 0 . m := 10 end",
        &[((3, 3), (3, 3), 0, Plus, [7, 0, 0])],
        &[(0, Failed(NoNeighbour))],
        &[((3, 3), (3, 3), 0, Plus, [7, 0, 0])],
    ),
    (
        "program var m 9 action a when true do head 0 . m := 10 end",
        &[
            ((3, 3), (3, 3), 0, Plus, [7, 0, 0]),
            ((4, 3), (4, 3), 0, Plus, [7, 0, 0]),
        ],
        &[(0, Failed(OutOfRange))],
        &[
            ((3, 3), (3, 3), 0, Plus, [7, 0, 0]),
            ((4, 3), (4, 3), 0, Plus, [7, 0, 0]),
        ],
    ),
    // the second amoebot writes what the first one reads in its next turn
    (
        "program var m 9 action a when head 0 . m = 1 do m := 2 action b when true do m := 1 end",
        &[
            ((3, 3), (3, 3), 0, Plus, [0, 0, 0]),
            ((4, 3), (4, 3), 3, Plus, [0, 0, 0]),
        ],
        &[
            (0, Done("1 none body 0 3 3 3 3 0 + 1")),
            (1, Done("0 none body 1 4 3 4 3 3 + 2")),
            (0, Done("1 none")),
            (1, Done("0 none")),
        ],
        &[
            ((3, 3), (3, 3), 0, Plus, [1, 0, 0]),
            ((4, 3), (4, 3), 3, Plus, [2, 0, 0]),
        ],
    ),
];

/// `let` and `if`.
static STATEMENTS: [Run; 6] = [
    // a name is in force in the movement
    (
        "program var m 9 action a when true do let q := head 1 ; m := 1 move expand q end",
        &[((3, 3), (3, 3), 0, Plus, [0, 0, 0])],
        &[(0, Done("0 expand head 1 spot 3 4 0 body 0 3 4 3 3 0 + 1"))],
        &[((3, 4), (3, 3), 0, Plus, [1, 0, 0])],
    ),
    // its port is what it was at the statement, neither before it nor behind it
    (
        "program var m 9 action a when true do m := 1 ; let q := head m ; m := 3 move expand q end",
        &[((3, 3), (3, 3), 0, Plus, [0, 0, 0])],
        &[(0, Done("0 expand head 1 spot 3 4 0 body 0 3 4 3 3 0 + 3"))],
        &[((3, 4), (3, 3), 0, Plus, [3, 0, 0])],
    ),
    // a pair that is no port may have a name, and fails where it is used
    (
        "program var m 9 action a when m = 0 do let q := tail 4 ; m := 1 \
        action b when m = 1 do let q := tail 4 ; q . m := 2 end",
        &[((3, 3), (3, 3), 0, Plus, [0, 0, 0])],
        &[
            (0, Done("0 none body 0 3 3 3 3 0 + 1")),
            (0, Failed(NoPort)),
        ],
        &[((3, 3), (3, 3), 0, Plus, [1, 0, 0])],
    ),
    (
        "program var m 9 action a when true do if m = 0 then m := 1 else m := 2 fi end",
        &[((3, 3), (3, 3), 0, Plus, [0, 0, 0])],
        &[
            (0, Done("0 none body 0 3 3 3 3 0 + 1")),
            (0, Done("0 none body 0 3 3 3 3 0 + 2")),
            (0, Done("0 none")),
        ],
        &[((3, 3), (3, 3), 0, Plus, [2, 0, 0])],
    ),
    // without `else` nothing is done where the condition is false
    (
        "program var m 9 action a when true do if m = 0 then m := 1 fi end",
        &[((3, 3), (3, 3), 0, Plus, [0, 0, 0])],
        &[
            (0, Done("0 none body 0 3 3 3 3 0 + 1")),
            (0, Done("0 none")),
        ],
        &[((3, 3), (3, 3), 0, Plus, [1, 0, 0])],
    ),
    (
        "program var m 9 action a when true do m := 1 ; if linked tail 0 then m := 2 else m := 3 fi end",
        &[((3, 3), (3, 3), 0, Plus, [0, 0, 0])],
        &[(0, Failed(NoPort))],
        &[((3, 3), (3, 3), 0, Plus, [0, 0, 0])],
    ),
];

/// `for`.
static LOOPS: [Run; 6] = [
    // the statements at the first port make the condition false at the second
    (
        "program var m 9 action a when true do for p in ports ( m = 0 ) do m := 1 ; p . m := 2 od end",
        &[
            ((3, 3), (3, 3), 0, Plus, [0, 0, 0]),
            ((4, 3), (4, 3), 0, Plus, [0, 0, 0]),
            ((3, 4), (3, 4), 0, Plus, [0, 0, 0]),
        ],
        &[(0, Done("0 none body 0 3 3 3 3 0 + 1 body 1 4 3 4 3 0 + 2"))],
        &[
            ((3, 3), (3, 3), 0, Plus, [1, 0, 0]),
            ((4, 3), (4, 3), 0, Plus, [2, 0, 0]),
            ((3, 4), (3, 4), 0, Plus, [0, 0, 0]),
        ],
    ),
    // and here they make it true: at `head 2` the write goes to `head 3`, where nobody is
    (
        "program var m 9 action a when true do for p in ports ( p . m = 1 ) do turn p 1 . m := 1 od end",
        &[
            ((3, 3), (3, 3), 0, Plus, [0, 0, 0]),
            ((4, 3), (4, 3), 0, Plus, [1, 0, 0]),
            ((3, 4), (3, 4), 0, Plus, [0, 0, 0]),
            ((2, 4), (2, 4), 0, Plus, [0, 0, 0]),
        ],
        &[(0, Failed(NoNeighbour))],
        &[
            ((3, 3), (3, 3), 0, Plus, [0, 0, 0]),
            ((4, 3), (4, 3), 0, Plus, [1, 0, 0]),
            ((3, 4), (3, 4), 0, Plus, [0, 0, 0]),
            ((2, 4), (2, 4), 0, Plus, [0, 0, 0]),
        ],
    ),
    // ports in their order: the last one is `head 1`, since the other nodes
    // round (0, 0) are outside the area
    (
        "program var m 9 action a when true do for p in free ( true ) do m := dir p od end",
        &[((0, 0), (0, 0), 0, Plus, [0, 0, 0])],
        &[(0, Done("0 none body 0 0 0 0 0 0 + 1"))],
        &[((0, 0), (0, 0), 0, Plus, [1, 0, 0])],
    ),
    // the head's ports come before the tail's
    (
        "program var m 99 action a when true do for p in ports ( true ) do m := m + m + m + dir p + 1 od end",
        &[
            ((3, 3), (2, 3), 0, Plus, [0, 0, 0]),
            ((2, 4), (2, 4), 0, Plus, [0, 0, 0]),
            ((1, 3), (1, 3), 0, Plus, [0, 0, 0]),
        ],
        &[(0, Done("0 none body 0 3 3 2 3 0 + 37"))],
        &[
            ((3, 3), (2, 3), 0, Plus, [37, 0, 0]),
            ((2, 4), (2, 4), 0, Plus, [0, 0, 0]),
            ((1, 3), (1, 3), 0, Plus, [0, 0, 0]),
        ],
    ),
    // a condition that fails behind a turn that wrote
    (
        "program var m 9 action a when true do \
        for p in ports ( p . m = 0 or linked tail 0 ) do m := 1 od end",
        &[
            ((3, 3), (3, 3), 0, Plus, [0, 0, 0]),
            ((4, 3), (4, 3), 0, Plus, [0, 0, 0]),
            ((3, 4), (3, 4), 0, Plus, [1, 0, 0]),
        ],
        &[(0, Failed(NoPort))],
        &[
            ((3, 3), (3, 3), 0, Plus, [0, 0, 0]),
            ((4, 3), (4, 3), 0, Plus, [0, 0, 0]),
            ((3, 4), (3, 4), 0, Plus, [1, 0, 0]),
        ],
    ),
    // one `for` in another, with a name for the port of each
    (
        "program var m 9 action a when true do for p in ports ( true ) \
        do for q in ports ( dir q > dir p ) do \
         let r := q ; r . m := p . m + 1 od od end",
        &[
            ((3, 3), (3, 3), 0, Plus, [0, 0, 0]),
            ((4, 3), (4, 3), 0, Plus, [0, 0, 0]),
            ((3, 4), (3, 4), 0, Plus, [0, 0, 0]),
            ((2, 4), (2, 4), 0, Plus, [0, 0, 0]),
        ],
        &[(0, Done("0 none body 2 3 4 3 4 0 + 1 body 3 2 4 2 4 0 + 2"))],
        &[
            ((3, 3), (3, 3), 0, Plus, [0, 0, 0]),
            ((4, 3), (4, 3), 0, Plus, [0, 0, 0]),
            ((3, 4), (3, 4), 0, Plus, [1, 0, 0]),
            ((2, 4), (2, 4), 0, Plus, [2, 0, 0]),
        ],
    ),
];

/// Which action decides.
static ACTIONS: [Run; 5] = [
    // the first whose guard is true, and not the last
    (
        "program var m 9 action a when false do m := 1 action b \
        when true do m := 2 action c when true do m := 3 end",
        &[((3, 3), (3, 3), 0, Plus, [0, 0, 0])],
        &[(0, Done("1 none body 0 3 3 3 3 0 + 2"))],
        &[((3, 3), (3, 3), 0, Plus, [2, 0, 0])],
    ),
    (
        "program var m 9 action a when false do m := 1 action b when m = 1 do m := 2 end",
        &[((3, 3), (3, 3), 0, Plus, [0, 0, 0])],
        &[(0, Idle)],
        &[((3, 3), (3, 3), 0, Plus, [0, 0, 0])],
    ),
    // the first guard is false and the second one fails: the third is not asked
    (
        "program var m 9 action a when false do m := 1 action b \
        when linked tail 0 do m := 2 action c when true do m := 3 end",
        &[((3, 3), (3, 3), 0, Plus, [0, 0, 0])],
        &[(0, Failed(NoPort))],
        &[((3, 3), (3, 3), 0, Plus, [0, 0, 0])],
    ),
    // nor is a guard behind the one that decides
    (
        "program var m 9 action a when true do m := 1 action b when linked tail 0 do m := 2 end",
        &[((3, 3), (3, 3), 0, Plus, [0, 0, 0])],
        &[(0, Done("0 none body 0 3 3 3 3 0 + 1"))],
        &[((3, 3), (3, 3), 0, Plus, [1, 0, 0])],
    ),
    // what fails in the action that decides is not made up for by a later one
    (
        "program var m 9 action a when true do m := 10 action b when true do m := 2 end",
        &[((3, 3), (3, 3), 0, Plus, [0, 0, 0])],
        &[(0, Failed(OutOfRange))],
        &[((3, 3), (3, 3), 0, Plus, [0, 0, 0])],
    ),
];

/// Each program does what its row says and leaves the shape that it says.
fn are_run(rt: &impl Abort, alloc: Global, table: &[Run]) -> Result<(), Fail> {
    for row in table {
        is_run(rt, alloc, row)?;
    }
    Ok(())
}

fn is_run(rt: &impl Abort, alloc: Global, row: &Run) -> Result<(), Fail> {
    let (text, first, turns, last) = *row;
    let world = runs(rt, alloc, text, first, turns)?;
    let wanted = world_of(alloc, world.maxes(), last)?;
    assert!(rt; world.same(&wanted), "{text}");
    Ok(())
}

#[test]
fn movements_are_made_or_fail_as_told(rt: HostRuntime) -> Result<(), Fail> {
    are_run(&rt, rt.alloc(), &MOVEMENTS)
}

#[test]
fn the_guard_stands_before_contractions_alone(rt: HostRuntime) -> Result<(), Fail> {
    are_run(&rt, rt.alloc(), &GUARDED)
}

#[test]
fn movements_without_what_they_need_fail(rt: HostRuntime) -> Result<(), Fail> {
    are_run(&rt, rt.alloc(), &IN_VAIN)
}

#[test]
fn writes_leave_these_values(rt: HostRuntime) -> Result<(), Fail> {
    are_run(&rt, rt.alloc(), &VALUES)
}

#[test]
fn writes_are_made_or_fail_in_this_order(rt: HostRuntime) -> Result<(), Fail> {
    are_run(&rt, rt.alloc(), &WRITES)
}

#[test]
fn statements_are_run_one_after_the_other(rt: HostRuntime) -> Result<(), Fail> {
    are_run(&rt, rt.alloc(), &STATEMENTS)
}

#[test]
fn the_statements_of_a_for_are_run_port_by_port(rt: HostRuntime) -> Result<(), Fail> {
    are_run(&rt, rt.alloc(), &LOOPS)
}

#[test]
fn the_first_action_whose_guard_holds_decides(rt: HostRuntime) -> Result<(), Fail> {
    are_run(&rt, rt.alloc(), &ACTIONS)
}
