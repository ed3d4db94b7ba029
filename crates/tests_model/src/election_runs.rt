//! Runs of `erosion` from small starts.
//! Steps, candidates and leaders were worked out by hand:
//! an amoebot may give up where the candidates round it are one arc, with a gap,
//! and may lead where there is none.

use crate::elections::{ERODE, LEAD, Run, first_difference};
use amoebot_state::Chir::{Minus, Plus};
use std::test::Fail;

static ALONE: Run = Run {
    places: &[(2, 3, 0, Plus)],
    asks: &[
        (0, ERODE, false, 1),
        (0, LEAD, true, 1),
        (0, LEAD, false, 1),
    ],
    leader: Some(0),
};

/// The first gives up, and cannot lead then.
static PAIR: Run = Run {
    places: &[(2, 3, 0, Plus), (3, 3, 0, Plus)],
    asks: &[
        (1, LEAD, false, 2),
        (0, ERODE, true, 1),
        (0, LEAD, false, 1),
        (0, ERODE, false, 1),
        (1, ERODE, false, 1),
        (1, LEAD, true, 1),
    ],
    leader: Some(1),
};

/// The two that each sees are neighbours, and so one arc.
static TRIANGLE: Run = Run {
    places: &[(2, 3, 0, Plus), (3, 3, 0, Plus), (2, 4, 0, Plus)],
    asks: &[
        (0, ERODE, true, 2),
        (1, ERODE, true, 1),
        (2, ERODE, false, 1),
        (2, LEAD, true, 1),
    ],
    leader: Some(2),
};

/// Three arms: the one in the middle waits until one arm is left.
static STAR: Run = Run {
    places: &[
        (3, 3, 0, Plus),
        (4, 3, 0, Plus),
        (2, 4, 0, Plus),
        (3, 2, 0, Plus),
    ],
    asks: &[
        (0, ERODE, false, 4),
        (1, ERODE, true, 3),
        (0, ERODE, false, 3),
        (2, ERODE, true, 2),
        (0, ERODE, true, 1),
        (3, LEAD, true, 1),
    ],
    leader: Some(3),
};

static LINE: Run = Run {
    places: &[
        (1, 3, 0, Plus),
        (2, 3, 0, Plus),
        (3, 3, 0, Plus),
        (4, 3, 0, Plus),
    ],
    asks: &[
        (1, ERODE, false, 4),
        (2, ERODE, false, 4),
        (0, ERODE, true, 3),
        (1, ERODE, true, 2),
        (2, ERODE, true, 1),
        (3, LEAD, true, 1),
        (3, ERODE, false, 1),
    ],
    leader: Some(3),
};

/// Each rotation with each chirality. Both ends give up in turn.
static LINE_TURNED: Run = Run {
    places: &[
        (1, 3, 0, Plus),
        (2, 3, 1, Plus),
        (3, 3, 2, Plus),
        (4, 3, 3, Plus),
        (5, 3, 4, Plus),
        (6, 3, 5, Plus),
        (7, 3, 0, Minus),
        (8, 3, 1, Minus),
        (9, 3, 2, Minus),
        (10, 3, 3, Minus),
        (11, 3, 4, Minus),
        (12, 3, 5, Minus),
    ],
    asks: &[
        (5, ERODE, false, 12),
        (0, ERODE, true, 11),
        (11, ERODE, true, 10),
        (1, ERODE, true, 9),
        (10, ERODE, true, 8),
        (2, ERODE, true, 7),
        (9, ERODE, true, 6),
        (6, ERODE, false, 6),
        (3, ERODE, true, 5),
        (8, ERODE, true, 4),
        (4, ERODE, true, 3),
        (7, ERODE, true, 2),
        (5, LEAD, false, 2),
        (6, ERODE, true, 1),
        (5, LEAD, true, 1),
    ],
    leader: Some(5),
};

/// Six round (3,3), where nobody stands. Each has two arcs of one.
static RING: Run = Run {
    places: &[
        (4, 3, 0, Plus),
        (3, 4, 0, Plus),
        (2, 4, 0, Plus),
        (2, 3, 0, Plus),
        (3, 2, 0, Plus),
        (4, 2, 0, Plus),
    ],
    asks: &[
        (0, ERODE, false, 6),
        (1, ERODE, false, 6),
        (2, ERODE, false, 6),
        (3, ERODE, false, 6),
        (4, ERODE, false, 6),
        (5, ERODE, false, 6),
        (0, LEAD, false, 6),
    ],
    leader: None,
};

/// The ring with a tail of two at its first one. The tail gives up.
static RING_WITH_TAIL: Run = Run {
    places: &[
        (4, 3, 0, Plus),
        (3, 4, 0, Plus),
        (2, 4, 0, Plus),
        (2, 3, 0, Plus),
        (3, 2, 0, Plus),
        (4, 2, 0, Plus),
        (5, 3, 0, Plus),
        (6, 3, 0, Plus),
    ],
    asks: &[
        (0, ERODE, false, 8),
        (6, ERODE, false, 8),
        (7, ERODE, true, 7),
        (0, ERODE, false, 7),
        (6, ERODE, true, 6),
        (0, ERODE, false, 6),
        (1, ERODE, false, 6),
        (2, ERODE, false, 6),
        (3, ERODE, false, 6),
        (4, ERODE, false, 6),
        (5, ERODE, false, 6),
    ],
    leader: None,
};

/// The ring gives up, and the one in the middle leads.
/// At first it has a full ring, which has no end.
static HEXAGON: Run = Run {
    places: &[
        (3, 3, 0, Plus),
        (4, 3, 0, Plus),
        (3, 4, 0, Plus),
        (2, 4, 0, Plus),
        (2, 3, 0, Plus),
        (3, 2, 0, Plus),
        (4, 2, 0, Plus),
    ],
    asks: &[
        (0, ERODE, false, 7),
        (1, ERODE, true, 6),
        (2, ERODE, true, 5),
        (3, ERODE, true, 4),
        (4, ERODE, true, 3),
        (5, ERODE, true, 2),
        (0, LEAD, false, 2),
        (6, ERODE, true, 1),
        (0, LEAD, true, 1),
    ],
    leader: Some(0),
};

/// The same shape, where each looks another way.
/// Once the ring is open, the one in the middle gives up.
static HEXAGON_TURNED: Run = Run {
    places: &[
        (3, 3, 2, Minus),
        (4, 3, 0, Minus),
        (3, 4, 1, Plus),
        (2, 4, 2, Plus),
        (2, 3, 3, Minus),
        (3, 2, 4, Plus),
        (4, 2, 5, Minus),
    ],
    asks: &[
        (0, ERODE, false, 7),
        (1, ERODE, true, 6),
        (0, ERODE, true, 5),
        (4, ERODE, false, 5),
        (2, ERODE, true, 4),
        (6, ERODE, true, 3),
        (4, ERODE, false, 3),
        (3, ERODE, true, 2),
        (5, ERODE, true, 1),
        (4, LEAD, true, 1),
    ],
    leader: Some(4),
};

/// The hexagon with a tail of one at amoebot 1, which has two arcs until
/// the ring has given up beside it.
static HEXAGON_WITH_TAIL: Run = Run {
    places: &[
        (3, 3, 0, Plus),
        (4, 3, 0, Plus),
        (3, 4, 0, Plus),
        (2, 4, 0, Plus),
        (2, 3, 0, Plus),
        (3, 2, 0, Plus),
        (4, 2, 0, Plus),
        (5, 3, 0, Plus),
    ],
    asks: &[
        (0, ERODE, false, 8),
        (1, ERODE, false, 8),
        (2, ERODE, true, 7),
        (3, ERODE, true, 6),
        (4, ERODE, true, 5),
        (5, ERODE, true, 4),
        (6, ERODE, true, 3),
        (1, ERODE, false, 3),
        (7, ERODE, true, 2),
        (0, ERODE, true, 1),
        (1, LEAD, true, 1),
    ],
    leader: Some(1),
};

static SQUARE: Run = Run {
    places: &[
        (2, 2, 0, Plus),
        (3, 2, 0, Plus),
        (4, 2, 0, Plus),
        (2, 3, 0, Plus),
        (3, 3, 0, Plus),
        (4, 3, 0, Plus),
        (2, 4, 0, Plus),
        (3, 4, 0, Plus),
        (4, 4, 0, Plus),
    ],
    asks: &[
        (4, ERODE, false, 9),
        (0, ERODE, true, 8),
        (1, ERODE, true, 7),
        (2, ERODE, true, 6),
        (3, ERODE, true, 5),
        (4, ERODE, true, 4),
        (5, ERODE, true, 3),
        (6, ERODE, true, 2),
        (7, ERODE, true, 1),
        (8, LEAD, true, 1),
    ],
    leader: Some(8),
};

#[test]
fn one_amoebot_leads(rt: HostRuntime) -> Result<(), Fail> {
    assert!(rt; first_difference(rt.alloc(), &ALONE)? == None);
    Ok(())
}

#[test]
fn of_two_the_second_leads_once_the_first_gave_up(rt: HostRuntime) -> Result<(), Fail> {
    assert!(rt; first_difference(rt.alloc(), &PAIR)? == None);
    Ok(())
}

#[test]
fn in_a_triangle_each_may_give_up(rt: HostRuntime) -> Result<(), Fail> {
    assert!(rt; first_difference(rt.alloc(), &TRIANGLE)? == None);
    Ok(())
}

#[test]
fn the_middle_of_a_star_waits_for_one_arm(rt: HostRuntime) -> Result<(), Fail> {
    assert!(rt; first_difference(rt.alloc(), &STAR)? == None);
    Ok(())
}

#[test]
fn a_line_is_left_by_its_ends(rt: HostRuntime) -> Result<(), Fail> {
    assert!(rt; first_difference(rt.alloc(), &LINE)? == None);
    Ok(())
}

#[test]
fn a_line_is_left_by_its_ends_whatever_way_they_look(rt: HostRuntime) -> Result<(), Fail> {
    assert!(rt; first_difference(rt.alloc(), &LINE_TURNED)? == None);
    Ok(())
}

#[test]
fn a_ring_without_its_middle_stays(rt: HostRuntime) -> Result<(), Fail> {
    assert!(rt; first_difference(rt.alloc(), &RING)? == None);
    Ok(())
}

#[test]
fn a_ring_is_left_by_its_tail_alone(rt: HostRuntime) -> Result<(), Fail> {
    assert!(rt; first_difference(rt.alloc(), &RING_WITH_TAIL)? == None);
    Ok(())
}

#[test]
fn a_full_hexagon_leaves_its_middle(rt: HostRuntime) -> Result<(), Fail> {
    assert!(rt; first_difference(rt.alloc(), &HEXAGON)? == None);
    Ok(())
}

#[test]
fn a_hexagon_in_which_each_looks_another_way_leaves_a_corner(rt: HostRuntime) -> Result<(), Fail> {
    assert!(rt; first_difference(rt.alloc(), &HEXAGON_TURNED)? == None);
    Ok(())
}

#[test]
fn a_hexagon_with_a_tail_leaves_the_one_between(rt: HostRuntime) -> Result<(), Fail> {
    assert!(rt; first_difference(rt.alloc(), &HEXAGON_WITH_TAIL)? == None);
    Ok(())
}

#[test]
fn a_square_is_left_row_by_row(rt: HostRuntime) -> Result<(), Fail> {
    assert!(rt; first_difference(rt.alloc(), &SQUARE)? == None);
    Ok(())
}
