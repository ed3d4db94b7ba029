use crate::core_fixtures::Dragger;
use crate::tables::{Case, Doing, Place, Seen, Steps, Told, check_case};
use amoebot_state::{CellName, End, Failure, Moved, Port};
use claim_core::{Look, Mark};
use small_worlds::{Expander, Marker};
use std::test::Fail;
use tri_lattice::Node;

/// The tag of caller 0 in turn 0 on amoebot 0: 1 + 0 + 4096 * (0 + 65536 * 0).
const TAG_0: u64 = 1;

/// The tag of caller 1 in turn 0 on amoebot 1: 1 + 1 + 4096 * (0 + 65536 * 1).
const TAG_1: u64 = 268_435_458;

const HEAD_0: Port = Port {
    end: End::Head,
    dir: 0,
};

/// The program that expands contracted amoebots through head 0.
const EXPANDER: Expander = Expander { port: HEAD_0 };

const EXPANDED: Moved = Moved::Expand(HEAD_0);

/// The nodes of two amoebots side by side.
const AT_0: CellName = CellName::Spot(Node { x: 2, y: 3 });

const AT_1: CellName = CellName::Spot(Node { x: 3, y: 3 });

/// These amoebots, with variable 0 at 0 and at 1.
const LEFT: Place = ((2, 3), (2, 3), 0);

const LEFT_1: Place = ((2, 3), (2, 3), 1);

const RIGHT: Place = ((3, 3), (3, 3), 0);

const RIGHT_1: Place = ((3, 3), (3, 3), 1);

/// The zone of amoebot 0 at (2, 3), beside amoebot 1 at (3, 3): at first, and once it is marked.
const ZONE_0: &[Seen] = &[
    Seen::Body(0, LEFT),
    Seen::Spot(2, 3, Some(0)),
    Seen::Spot(3, 3, Some(1)),
    Seen::Spot(2, 4, None),
    Seen::Spot(1, 4, None),
    Seen::Spot(1, 3, None),
    Seen::Spot(2, 2, None),
    Seen::Spot(3, 2, None),
    Seen::Body(1, RIGHT),
];

const MARKED_ZONE_0: &[Seen] = &[
    Seen::Body(0, LEFT_1),
    Seen::Spot(2, 3, Some(0)),
    Seen::Spot(3, 3, Some(1)),
    Seen::Spot(2, 4, None),
    Seen::Spot(1, 4, None),
    Seen::Spot(1, 3, None),
    Seen::Spot(2, 2, None),
    Seen::Spot(3, 2, None),
    Seen::Body(1, RIGHT),
];

/// The zone of amoebot 1 there: at first, and with amoebot 0 marked, and then with both.
const ZONE_1: &[Seen] = &[
    Seen::Body(1, RIGHT),
    Seen::Spot(3, 3, Some(1)),
    Seen::Spot(4, 3, None),
    Seen::Spot(3, 4, None),
    Seen::Spot(2, 4, None),
    Seen::Spot(2, 3, Some(0)),
    Seen::Spot(3, 2, None),
    Seen::Spot(4, 2, None),
    Seen::Body(0, LEFT),
];

const ZONE_1_BESIDE_MARKED: &[Seen] = &[
    Seen::Body(1, RIGHT),
    Seen::Spot(3, 3, Some(1)),
    Seen::Spot(4, 3, None),
    Seen::Spot(3, 4, None),
    Seen::Spot(2, 4, None),
    Seen::Spot(2, 3, Some(0)),
    Seen::Spot(3, 2, None),
    Seen::Spot(4, 2, None),
    Seen::Body(0, LEFT_1),
];

const MARKED_ZONE_1: &[Seen] = &[
    Seen::Body(1, RIGHT_1),
    Seen::Spot(3, 3, Some(1)),
    Seen::Spot(4, 3, None),
    Seen::Spot(3, 4, None),
    Seen::Spot(2, 4, None),
    Seen::Spot(2, 3, Some(0)),
    Seen::Spot(3, 2, None),
    Seen::Spot(4, 2, None),
    Seen::Body(0, LEFT_1),
];

const DONE_0: Mark = Mark::Done { place: 0 };

const DONE_1: Mark = Mark::Done { place: 1 };

/// The marks of a turn that was refused a cell by turn 0 of the caller
/// and amoebot of the other number.
const BUSY_AT_1: Mark = Mark::Busy {
    cell: AT_1,
    by_caller: 0,
    by_turn: 0,
    by_bot: 0,
    place: 0,
};

const BUSY_AT_0: Mark = Mark::Busy {
    cell: AT_0,
    by_caller: 0,
    by_turn: 0,
    by_bot: 0,
    place: 0,
};

const BUSY_AT_1_BY_1: Mark = Mark::Busy {
    cell: AT_1,
    by_caller: 1,
    by_turn: 0,
    by_bot: 1,
    place: 0,
};

/// The marks of a turn that was refused the body of amoebot 0 by turn 0 of caller 0,
/// before the first entry and behind it.
const BUSY_AT_BODY: Mark = Mark::Busy {
    cell: CellName::Body(0),
    by_caller: 0,
    by_turn: 0,
    by_bot: 0,
    place: 0,
};

const BUSY_AT_BODY_LATER: Mark = Mark::Busy {
    cell: CellName::Body(0),
    by_caller: 0,
    by_turn: 0,
    by_bot: 0,
    place: 1,
};

const BODY_REFUSED: Doing = Doing::Refused(CellName::Body(0), TAG_0);

/// Caller 0 holds its body and seven nodes when caller 1 wins its body and is refused its node.
static BUSY_THEN_DONE: Case = Case {
    bots: &[LEFT, RIGHT],
    turns: 2,
    ids: &[&[0], &[1]],
    zones: &[ZONE_0, MARKED_ZONE_0, ZONE_1_BESIDE_MARKED, MARKED_ZONE_1],
    steps: &[
        Steps(0, 0, 0, Doing::Claims, 0, 1, 8),
        Steps(1, 0, 1, Doing::Claims, 2, 1, 1),
        Steps(1, 0, 1, Doing::Refused(AT_1, TAG_0), 2, 1, 1),
        Steps(1, 0, 1, Doing::Releases, 2, 1, 1),
        Steps(1, 1, 1, Doing::Claims, 2, 0, 0),
        Steps(0, 0, 0, Doing::Takes, 0, 9, 9),
        Steps(0, 0, 0, Doing::Commits, 0, 9, 9),
        Steps(0, 0, 0, Doing::Releases, 1, 9, 1),
        Steps(0, 1, 0, Doing::Claims, 1, 0, 0),
        Steps(1, 1, 1, Doing::Claims, 2, 1, 8),
        Steps(1, 1, 1, Doing::Takes, 2, 9, 9),
        Steps(1, 1, 1, Doing::Commits, 2, 9, 9),
        Steps(1, 1, 1, Doing::Releases, 3, 9, 1),
        Steps(1, 2, 1, Doing::Ended, 3, 0, 0),
    ],
    entries: &[
        Told(0, 0, 0, 0, Moved::None, &[Seen::Body(0, LEFT_1)]),
        Told(1, 1, 1, 0, Moved::None, &[Seen::Body(1, RIGHT_1)]),
    ],
    marks: &[&[DONE_0, Mark::Idle { place: 2 }], &[BUSY_AT_1, DONE_1]],
    last: &[LEFT_1, RIGHT_1],
};

#[test]
fn a_turn_is_busy_at_a_held_node_and_the_next_one_commits(rt: HostRuntime) -> Result<(), Fail> {
    check_case(&rt, rt.alloc(), &Marker, &BUSY_THEN_DONE)
}

/// Each of two callers is refused the node of the other one's amoebot.
static BUSY_BY_EACH_OTHER: Case = Case {
    bots: &[LEFT, RIGHT],
    turns: 1,
    ids: &[&[0], &[1]],
    zones: &[ZONE_0, ZONE_1],
    steps: &[
        Steps(0, 0, 0, Doing::Claims, 0, 1, 2),
        Steps(1, 0, 1, Doing::Claims, 1, 1, 5),
        Steps(1, 0, 1, Doing::Refused(AT_0, TAG_0), 1, 5, 5),
        Steps(0, 0, 0, Doing::Refused(AT_1, TAG_1), 0, 2, 2),
    ],
    entries: &[],
    marks: &[&[BUSY_AT_1_BY_1], &[BUSY_AT_0]],
    last: &[LEFT, RIGHT],
};

#[test]
fn two_turns_are_busy_by_each_other(rt: HostRuntime) -> Result<(), Fail> {
    check_case(&rt, rt.alloc(), &Marker, &BUSY_BY_EACH_OTHER)
}

/// Amoebot 0 at (1, 1) and amoebot 1 at (6, 6), contracted and expanded to the right.
const NEAR: Place = ((1, 1), (1, 1), 0);

const NEAR_SPREAD: Place = ((2, 1), (1, 1), 0);

const FAR: Place = ((6, 6), (6, 6), 0);

const FAR_SPREAD: Place = ((7, 6), (6, 6), 0);

/// The zone of amoebot 0, far from all others, as it claims it,
/// and once it has expanded into the node to its right.
const NEAR_ZONE: &[Seen] = &[
    Seen::Body(0, NEAR),
    Seen::Spot(1, 1, Some(0)),
    Seen::Spot(2, 1, None),
    Seen::Spot(1, 2, None),
    Seen::Spot(0, 2, None),
    Seen::Spot(0, 1, None),
    Seen::Spot(1, 0, None),
    Seen::Spot(2, 0, None),
];

const NEAR_ZONE_LEFT: &[Seen] = &[
    Seen::Body(0, NEAR_SPREAD),
    Seen::Spot(1, 1, Some(0)),
    Seen::Spot(2, 1, Some(0)),
    Seen::Spot(1, 2, None),
    Seen::Spot(0, 2, None),
    Seen::Spot(0, 1, None),
    Seen::Spot(1, 0, None),
    Seen::Spot(2, 0, None),
];

/// The zone of amoebot 1, in the same way.
const FAR_ZONE: &[Seen] = &[
    Seen::Body(1, FAR),
    Seen::Spot(6, 6, Some(1)),
    Seen::Spot(7, 6, None),
    Seen::Spot(6, 7, None),
    Seen::Spot(5, 7, None),
    Seen::Spot(5, 6, None),
    Seen::Spot(6, 5, None),
    Seen::Spot(7, 5, None),
];

const FAR_ZONE_LEFT: &[Seen] = &[
    Seen::Body(1, FAR_SPREAD),
    Seen::Spot(6, 6, Some(1)),
    Seen::Spot(7, 6, Some(1)),
    Seen::Spot(6, 7, None),
    Seen::Spot(5, 7, None),
    Seen::Spot(5, 6, None),
    Seen::Spot(6, 5, None),
    Seen::Spot(7, 5, None),
];

/// What an entry changes by which one of them expands.
const NEAR_CHANGED: &[Seen] = &[Seen::Spot(2, 1, Some(0)), Seen::Body(0, NEAR_SPREAD)];

const FAR_CHANGED: &[Seen] = &[Seen::Spot(7, 6, Some(1)), Seen::Body(1, FAR_SPREAD)];

/// Caller 1 commits before caller 0 has made a step.
static SECOND_CALLER_FIRST: Case = Case {
    bots: &[NEAR, FAR],
    turns: 1,
    ids: &[&[0], &[1]],
    zones: &[FAR_ZONE, FAR_ZONE_LEFT],
    steps: &[
        Steps(1, 0, 1, Doing::Claims, 0, 1, 7),
        Steps(1, 0, 1, Doing::Takes, 0, 8, 8),
        Steps(1, 0, 1, Doing::Commits, 0, 8, 8),
        Steps(1, 0, 1, Doing::Releases, 1, 8, 8),
    ],
    entries: &[
        Told(1, 0, 1, 0, EXPANDED, FAR_CHANGED),
        Told(0, 0, 0, 0, EXPANDED, NEAR_CHANGED),
    ],
    marks: &[&[DONE_1], &[DONE_0]],
    last: &[NEAR_SPREAD, FAR_SPREAD],
};

#[test]
fn the_caller_that_commits_first_has_the_first_entry(rt: HostRuntime) -> Result<(), Fail> {
    check_case(&rt, rt.alloc(), &EXPANDER, &SECOND_CALLER_FIRST)
}

/// Caller 1 tries for the journal three times, of which the first two find it taken by caller 0.
static TRIES_MEET: Case = Case {
    bots: &[NEAR, FAR],
    turns: 1,
    ids: &[&[0], &[1]],
    zones: &[NEAR_ZONE, NEAR_ZONE_LEFT, FAR_ZONE, FAR_ZONE_LEFT],
    steps: &[
        Steps(0, 0, 0, Doing::Claims, 0, 1, 7),
        Steps(1, 0, 1, Doing::Claims, 2, 1, 7),
        Steps(0, 0, 0, Doing::Takes, 0, 8, 8),
        Steps(1, 0, 1, Doing::Takes, 2, 8, 8),
        Steps(0, 0, 0, Doing::Commits, 0, 8, 8),
        Steps(1, 0, 1, Doing::Takes, 2, 8, 8),
        Steps(1, 0, 1, Doing::Takes, 2, 8, 8),
        Steps(0, 0, 0, Doing::Releases, 1, 8, 8),
        Steps(1, 0, 1, Doing::Commits, 2, 8, 8),
        Steps(1, 0, 1, Doing::Releases, 3, 8, 7),
    ],
    entries: &[
        Told(0, 0, 0, 0, EXPANDED, NEAR_CHANGED),
        Told(1, 0, 1, 0, EXPANDED, FAR_CHANGED),
    ],
    marks: &[&[DONE_0], &[DONE_1]],
    last: &[NEAR_SPREAD, FAR_SPREAD],
};

#[test]
fn a_try_for_a_taken_journal_is_made_again(rt: HostRuntime) -> Result<(), Fail> {
    check_case(&rt, rt.alloc(), &EXPANDER, &TRIES_MEET)
}

/// Caller 1 is refused its own body, as long as caller 0 holds it.
/// When it has ended, its steps change nothing.
static OWN_BODY_REFUSED: Case = Case {
    bots: &[LEFT, RIGHT],
    turns: 2,
    ids: &[&[0], &[0]],
    zones: &[ZONE_0, MARKED_ZONE_0],
    steps: &[
        Steps(0, 0, 0, Doing::Claims, 0, 1, 1),
        Steps(1, 0, 0, BODY_REFUSED, 0, 0, 0),
        Steps(1, 1, 0, Doing::Claims, 0, 0, 0),
        Steps(0, 0, 0, Doing::Claims, 0, 2, 8),
        Steps(1, 1, 0, BODY_REFUSED, 0, 0, 0),
        Steps(0, 0, 0, Doing::Takes, 0, 9, 9),
        Steps(0, 0, 0, Doing::Commits, 0, 9, 9),
        Steps(0, 0, 0, Doing::Releases, 1, 9, 9),
        Steps(1, 2, 0, Doing::Ended, 0, 0, 0),
        Steps(1, 2, 0, Doing::Ended, 0, 0, 0),
        Steps(0, 0, 0, Doing::Releases, 1, 8, 1),
        Steps(1, 2, 0, Doing::Ended, 0, 0, 0),
    ],
    entries: &[Told(0, 0, 0, 0, Moved::None, &[Seen::Body(0, LEFT_1)])],
    marks: &[
        &[DONE_0, Mark::Idle { place: 1 }],
        &[BUSY_AT_BODY, BUSY_AT_BODY_LATER],
    ],
    last: &[LEFT_1, RIGHT],
};

#[test]
fn a_caller_refused_at_its_own_body_goes_on_until_it_has_ended(
    rt: HostRuntime,
) -> Result<(), Fail> {
    check_case(&rt, rt.alloc(), &Marker, &OWN_BODY_REFUSED)
}

/// The zone of amoebot 0 with its head at (2, 1) and its tail at (1, 1): its own nodes,
/// those behind the ports of its head, of which that in direction 3 is none,
/// and those behind the ports of its tail that are new.
const WIDE_ZONE: &[Seen] = &[
    Seen::Body(0, NEAR_SPREAD),
    Seen::Spot(2, 1, Some(0)),
    Seen::Spot(1, 1, Some(0)),
    Seen::Spot(3, 1, None),
    Seen::Spot(2, 2, None),
    Seen::Spot(1, 2, None),
    Seen::Spot(2, 0, None),
    Seen::Spot(3, 0, None),
    Seen::Spot(0, 2, None),
    Seen::Spot(0, 1, None),
    Seen::Spot(1, 0, None),
];

/// Caller 1 is refused amoebot 0 before caller 0 moves it, and finds it moved in its next turn.
static MOVED_BETWEEN: Case = Case {
    bots: &[NEAR, FAR],
    turns: 2,
    ids: &[&[0, 1], &[0]],
    zones: &[NEAR_ZONE, NEAR_ZONE_LEFT, WIDE_ZONE],
    steps: &[
        Steps(0, 0, 0, Doing::Claims, 0, 1, 7),
        Steps(0, 0, 0, Doing::Takes, 0, 8, 8),
        Steps(1, 0, 0, BODY_REFUSED, 2, 0, 0),
        Steps(0, 0, 0, Doing::Commits, 0, 8, 8),
        Steps(0, 0, 0, Doing::Releases, 1, 8, 1),
        Steps(0, 1, 1, Doing::Claims, 1, 0, 0),
        Steps(1, 1, 0, Doing::Claims, 2, 0, 0),
        Steps(1, 1, 0, Doing::Claims, 2, 1, 10),
        Steps(1, 1, 0, Doing::Looks(Look::Idle), 2, 11, 11),
        Steps(1, 1, 0, Doing::Releases, 2, 11, 1),
        Steps(1, 2, 0, Doing::Ended, 2, 0, 0),
    ],
    entries: &[
        Told(0, 0, 0, 0, EXPANDED, NEAR_CHANGED),
        Told(0, 1, 1, 0, EXPANDED, FAR_CHANGED),
    ],
    marks: &[
        &[DONE_0, DONE_1],
        &[BUSY_AT_BODY_LATER, Mark::Idle { place: 1 }],
    ],
    last: &[NEAR_SPREAD, FAR_SPREAD],
};

#[test]
fn a_turn_finds_the_zone_of_an_amoebot_that_another_caller_moved(
    rt: HostRuntime,
) -> Result<(), Fail> {
    check_case(&rt, rt.alloc(), &EXPANDER, &MOVED_BETWEEN)
}

const TAIL_3: Port = Port {
    end: End::Tail,
    dir: 3,
};

/// The program that pulls a contracted amoebot behind tail 3,
/// and else notes that its own is expanded.
const DRAGGER: Dragger = Dragger { port: TAIL_3 };

/// Amoebot 0 with its head at (3, 3) and its tail at (2, 3), and amoebot 1 behind it,
/// which it pulls.
const DRAGGING: Place = ((3, 3), (2, 3), 0);

const DRAGGED: Place = ((1, 3), (1, 3), 0);

/// Amoebot 1 once it is pulled, and once it has made its note.
const PULLED: Place = ((2, 3), (1, 3), 0);

const PULLED_1: Place = ((2, 3), (1, 3), 1);

/// The zone of amoebot 1 contracted at (1, 3).
const ZONE_BEFORE_PULL: &[Seen] = &[
    Seen::Body(1, DRAGGED),
    Seen::Spot(1, 3, Some(1)),
    Seen::Spot(2, 3, Some(0)),
    Seen::Spot(1, 4, None),
    Seen::Spot(0, 4, None),
    Seen::Spot(0, 3, None),
    Seen::Spot(1, 2, None),
    Seen::Spot(2, 2, None),
    Seen::Body(0, DRAGGING),
];

/// The cells that amoebot 0 is shown with its head at (3, 3) and its tail at (2, 3): its own nodes,
/// those behind the ports of its head, of which that in direction 3 is none,
/// those behind the ports of its tail that are new, and amoebot 1.
/// The pull changes the value of three of them: both bodies, and who is on (2, 3).
const ZONE_OF_PULL: &[Seen] = &[
    Seen::Body(0, DRAGGING),
    Seen::Spot(3, 3, Some(0)),
    Seen::Spot(2, 3, Some(0)),
    Seen::Spot(4, 3, None),
    Seen::Spot(3, 4, None),
    Seen::Spot(2, 4, None),
    Seen::Spot(3, 2, None),
    Seen::Spot(4, 2, None),
    Seen::Spot(1, 4, None),
    Seen::Spot(1, 3, Some(1)),
    Seen::Spot(2, 2, None),
    Seen::Body(1, DRAGGED),
];

const ZONE_OF_PULL_LEFT: &[Seen] = &[
    Seen::Body(0, RIGHT),
    Seen::Spot(3, 3, Some(0)),
    Seen::Spot(2, 3, Some(1)),
    Seen::Spot(4, 3, None),
    Seen::Spot(3, 4, None),
    Seen::Spot(2, 4, None),
    Seen::Spot(3, 2, None),
    Seen::Spot(4, 2, None),
    Seen::Spot(1, 4, None),
    Seen::Spot(1, 3, Some(1)),
    Seen::Spot(2, 2, None),
    Seen::Body(1, PULLED),
];

/// The zone of amoebot 1 with its head at (2, 3) and its tail at (1, 3), in the same way,
/// with its value of variable 0.
const ZONE_AFTER_PULL: &[Seen] = &[
    Seen::Body(1, PULLED),
    Seen::Spot(2, 3, Some(1)),
    Seen::Spot(1, 3, Some(1)),
    Seen::Spot(3, 3, Some(0)),
    Seen::Spot(2, 4, None),
    Seen::Spot(1, 4, None),
    Seen::Spot(2, 2, None),
    Seen::Spot(3, 2, None),
    Seen::Spot(0, 4, None),
    Seen::Spot(0, 3, None),
    Seen::Spot(1, 2, None),
    Seen::Body(0, RIGHT),
];

const ZONE_AFTER_PULL_LEFT: &[Seen] = &[
    Seen::Body(1, PULLED_1),
    Seen::Spot(2, 3, Some(1)),
    Seen::Spot(1, 3, Some(1)),
    Seen::Spot(3, 3, Some(0)),
    Seen::Spot(2, 4, None),
    Seen::Spot(1, 4, None),
    Seen::Spot(2, 2, None),
    Seen::Spot(3, 2, None),
    Seen::Spot(0, 4, None),
    Seen::Spot(0, 3, None),
    Seen::Spot(1, 2, None),
    Seen::Body(0, RIGHT),
];

/// Caller 1 finds its amoebot contracted, and nine cells.
/// Caller 0 pulls it, and then caller 1 finds it expanded, and twelve cells.
static PULLED_BETWEEN: Case = Case {
    bots: &[DRAGGING, DRAGGED],
    turns: 2,
    ids: &[&[0], &[1]],
    zones: &[
        ZONE_BEFORE_PULL,
        ZONE_OF_PULL,
        ZONE_OF_PULL_LEFT,
        ZONE_AFTER_PULL,
        ZONE_AFTER_PULL_LEFT,
    ],
    steps: &[
        Steps(1, 0, 1, Doing::Claims, 0, 1, 8),
        Steps(1, 0, 1, Doing::Looks(Look::Idle), 0, 9, 9),
        Steps(1, 0, 1, Doing::Releases, 0, 9, 1),
        Steps(1, 1, 1, Doing::Claims, 0, 0, 0),
        Steps(0, 0, 0, Doing::Claims, 1, 1, 11),
        Steps(0, 0, 0, Doing::Takes, 1, 12, 12),
        Steps(0, 0, 0, Doing::Commits, 1, 12, 12),
        Steps(0, 0, 0, Doing::Releases, 2, 12, 1),
        Steps(0, 1, 0, Doing::Claims, 2, 0, 0),
        Steps(1, 1, 1, Doing::Claims, 3, 1, 11),
        Steps(1, 1, 1, Doing::Takes, 3, 12, 12),
        Steps(1, 1, 1, Doing::Commits, 3, 12, 12),
        Steps(1, 1, 1, Doing::Releases, 4, 12, 1),
        Steps(1, 2, 1, Doing::Ended, 4, 0, 0),
    ],
    entries: &[
        Told(
            0,
            0,
            0,
            0,
            Moved::Pull(TAIL_3),
            &[
                Seen::Spot(2, 3, Some(1)),
                Seen::Body(0, RIGHT),
                Seen::Body(1, PULLED),
            ],
        ),
        Told(1, 1, 1, 1, Moved::None, &[Seen::Body(1, PULLED_1)]),
    ],
    marks: &[
        &[DONE_0, Mark::Idle { place: 2 }],
        &[Mark::Idle { place: 0 }, DONE_1],
    ],
    last: &[RIGHT, PULLED_1],
};

#[test]
fn a_turn_finds_the_zone_of_an_amoebot_that_another_caller_pulled(
    rt: HostRuntime,
) -> Result<(), Fail> {
    check_case(&rt, rt.alloc(), &DRAGGER, &PULLED_BETWEEN)
}

/// All callers but the first are refused the body of amoebot 0.
static SIXTEEN: Case = Case {
    bots: &[LEFT, RIGHT],
    turns: 1,
    ids: &[
        &[0],
        &[0],
        &[0],
        &[0],
        &[0],
        &[0],
        &[0],
        &[0],
        &[0],
        &[0],
        &[0],
        &[0],
        &[0],
        &[0],
        &[0],
        &[0],
    ],
    zones: &[ZONE_0],
    steps: &[
        Steps(0, 0, 0, Doing::Claims, 0, 1, 1),
        Steps(1, 0, 0, BODY_REFUSED, 0, 0, 0),
        Steps(2, 0, 0, BODY_REFUSED, 0, 0, 0),
        Steps(3, 0, 0, BODY_REFUSED, 0, 0, 0),
        Steps(4, 0, 0, BODY_REFUSED, 0, 0, 0),
        Steps(5, 0, 0, BODY_REFUSED, 0, 0, 0),
        Steps(6, 0, 0, BODY_REFUSED, 0, 0, 0),
        Steps(7, 0, 0, BODY_REFUSED, 0, 0, 0),
        Steps(8, 0, 0, BODY_REFUSED, 0, 0, 0),
        Steps(9, 0, 0, BODY_REFUSED, 0, 0, 0),
        Steps(10, 0, 0, BODY_REFUSED, 0, 0, 0),
        Steps(11, 0, 0, BODY_REFUSED, 0, 0, 0),
        Steps(12, 0, 0, BODY_REFUSED, 0, 0, 0),
        Steps(13, 0, 0, BODY_REFUSED, 0, 0, 0),
        Steps(14, 0, 0, BODY_REFUSED, 0, 0, 0),
        Steps(15, 0, 0, BODY_REFUSED, 0, 0, 0),
    ],
    entries: &[Told(0, 0, 0, 0, Moved::None, &[Seen::Body(0, LEFT_1)])],
    marks: &[
        &[DONE_0],
        &[BUSY_AT_BODY],
        &[BUSY_AT_BODY],
        &[BUSY_AT_BODY],
        &[BUSY_AT_BODY],
        &[BUSY_AT_BODY],
        &[BUSY_AT_BODY],
        &[BUSY_AT_BODY],
        &[BUSY_AT_BODY],
        &[BUSY_AT_BODY],
        &[BUSY_AT_BODY],
        &[BUSY_AT_BODY],
        &[BUSY_AT_BODY],
        &[BUSY_AT_BODY],
        &[BUSY_AT_BODY],
        &[BUSY_AT_BODY],
    ],
    last: &[LEFT_1, RIGHT],
};

#[test]
fn one_of_sixteen_callers_on_one_amoebot_commits(rt: HostRuntime) -> Result<(), Fail> {
    check_case(&rt, rt.alloc(), &Marker, &SIXTEEN)
}

/// No list, and no turn.
static NO_LIST: Case = Case {
    bots: &[LEFT],
    turns: 2,
    ids: &[],
    zones: &[&[]],
    steps: &[],
    entries: &[],
    marks: &[],
    last: &[LEFT],
};

static NO_TURN: Case = Case {
    bots: &[LEFT],
    turns: 0,
    ids: &[&[0], &[0]],
    zones: &[&[]],
    steps: &[Steps(1, 0, 0, Doing::Ended, 0, 0, 0)],
    entries: &[],
    marks: &[&[], &[]],
    last: &[LEFT],
};

#[test]
fn with_no_list_or_no_turn_all_have_ended_at_once(rt: HostRuntime) -> Result<(), Fail> {
    check_case(&rt, rt.alloc(), &Marker, &NO_LIST)?;
    check_case(&rt, rt.alloc(), &Marker, &NO_TURN)
}

const EDGE: Place = ((7, 3), (7, 3), 0);

/// The zone of amoebot 2 at (7, 3).
/// The nodes behind its ports head 0 and head 5 lie outside the area.
const EDGE_ZONE: &[Seen] = &[
    Seen::Body(2, EDGE),
    Seen::Spot(7, 3, Some(2)),
    Seen::Spot(7, 4, None),
    Seen::Spot(6, 4, None),
    Seen::Spot(6, 3, None),
    Seen::Spot(7, 2, None),
];

/// Caller 0 has the amoebots 0, 2 and 1 in turn, of which 2 stands at the edge.
static FAILED_BETWEEN: Case = Case {
    bots: &[NEAR, FAR, EDGE],
    turns: 3,
    ids: &[&[0, 2, 1]],
    zones: &[
        NEAR_ZONE,
        NEAR_ZONE_LEFT,
        EDGE_ZONE,
        FAR_ZONE,
        FAR_ZONE_LEFT,
    ],
    steps: &[
        Steps(0, 0, 0, Doing::Claims, 0, 1, 7),
        Steps(0, 0, 0, Doing::Takes, 0, 8, 8),
        Steps(0, 0, 0, Doing::Commits, 0, 8, 8),
        Steps(0, 0, 0, Doing::Releases, 1, 8, 1),
        Steps(0, 1, 2, Doing::Claims, 2, 0, 0),
        Steps(0, 1, 2, Doing::Claims, 2, 1, 5),
        Steps(0, 1, 2, Doing::Looks(Look::Failed(Failure::Edge)), 2, 6, 6),
        Steps(0, 1, 2, Doing::Releases, 2, 6, 1),
        Steps(0, 2, 1, Doing::Claims, 3, 0, 0),
        Steps(0, 2, 1, Doing::Claims, 3, 1, 7),
        Steps(0, 2, 1, Doing::Takes, 3, 8, 8),
        Steps(0, 2, 1, Doing::Commits, 3, 8, 8),
        Steps(0, 2, 1, Doing::Releases, 4, 8, 1),
        Steps(0, 3, 0, Doing::Ended, 0, 0, 0),
    ],
    entries: &[
        Told(0, 0, 0, 0, EXPANDED, NEAR_CHANGED),
        Told(0, 2, 1, 0, EXPANDED, FAR_CHANGED),
    ],
    marks: &[&[
        DONE_0,
        Mark::Failed {
            failure: Failure::Edge,
            place: 1,
        },
        DONE_1,
    ]],
    last: &[NEAR_SPREAD, FAR_SPREAD, EDGE],
};

#[test]
fn a_turn_that_fails_stands_between_two_that_are_done(rt: HostRuntime) -> Result<(), Fail> {
    check_case(&rt, rt.alloc(), &EXPANDER, &FAILED_BETWEEN)
}
