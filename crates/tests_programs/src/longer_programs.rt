//! Runs of three longer programs, each turn with what it does, written down beforehand.

use crate::fixtures::{Body, Told, Turn, runs, world_of};
use Told::{Done, Idle};
use amoebot_state::Chir::Plus;
use std::test::Fail;

/// A hexagon is formed round a seed.
static HEXAGON: &str = "program
guard on
var state 4
var parent 6
var aim 6
action root
when contracted and ( state = 0 or state = 2 )
 and any p in ports ( p . state = 1 or p . state = 4 )
do parent := 6 ; state := 3
action follow
when contracted and state = 0
 and any p in ports ( p . state = 2 or p . state = 3 )
do let q := first p in ports ( p . state = 2 or p . state = 3 ) ;
 parent := dir q ; state := 2
action retire
when contracted and state = 3 and any p in ports (
 ( p . state = 1 or p . state = 4 ) and p . aim = peer_dir p )
do let q := first p in ports ( ( p . state = 1 or p . state = 4 )
 and not ( linked turn p 5
 and ( turn p 5 . state = 1 or turn p 5 . state = 4 ) ) ) ;
 aim := dir turn q 5 ; state := 4
action go
when contracted and state = 3 and any p in ports (
 ( p . state = 1 or p . state = 4 ) and free turn p 1 )
move expand turn first p in ports (
 ( p . state = 1 or p . state = 4 ) and free turn p 1 ) 1
action drag
when expanded and ( state = 2 or state = 3 )
 and not any p in ports ( p . state = 0 )
 and any p in ports ( not at_head p and p . state = 2
 and not peer_expanded p and p . parent = peer_dir p )
do let q := first p in ports ( not at_head p and p . state = 2
 and not peer_expanded p and p . parent = peer_dir p ) ;
 q . parent := mod6 ( inner - dir q + peer_dir q + 3 )
move pull q
action rest
when expanded and ( state = 2 or state = 3 )
 and not any p in ports ( p . state = 0 or not at_head p
 and p . state = 2 and peer_head p and p . parent = peer_dir p )
move contract tail
end";

/// A leader is left where candidates are eroded from the border of a shape without holes.
static EROSION: &str = "program
guard off
var cand 1
var leader 1
action lead
when cand = 1 and leader = 0 and not any p in ports ( p . cand = 1 )
do leader := 1
action erode
when cand = 1 and count p in ports ( p . cand = 1
 and not ( linked turn p 1 and turn p 1 . cand = 1 ) ) = 1
do cand := 0
end";

/// Amoebots with one orientation move to the border of the area.
static LINE: &str = "program
guard off
action out
when contracted and free head 0
move expand head 0
action follow_up
when expanded
move contract tail
end";

static RING: [Body; 6] = [
    ((4, 3), (4, 3), 0, Plus, [1, 0, 0]),
    ((3, 4), (3, 4), 0, Plus, [1, 0, 0]),
    ((2, 4), (2, 4), 0, Plus, [1, 0, 0]),
    ((2, 3), (2, 3), 0, Plus, [1, 0, 0]),
    ((3, 2), (3, 2), 0, Plus, [1, 0, 0]),
    ((4, 2), (4, 2), 0, Plus, [1, 0, 0]),
];

/// Each amoebot of a ring has two candidates beside it that are not beside each other.
static RING_STAYS: [Turn; 6] = [
    (0, Idle),
    (1, Idle),
    (2, Idle),
    (3, Idle),
    (4, Idle),
    (5, Idle),
];

static DISC: [Body; 7] = [
    ((3, 3), (3, 3), 0, Plus, [1, 0, 0]),
    ((4, 3), (4, 3), 0, Plus, [1, 0, 0]),
    ((3, 4), (3, 4), 0, Plus, [1, 0, 0]),
    ((2, 4), (2, 4), 0, Plus, [1, 0, 0]),
    ((2, 3), (2, 3), 0, Plus, [1, 0, 0]),
    ((3, 2), (3, 2), 0, Plus, [1, 0, 0]),
    ((4, 2), (4, 2), 0, Plus, [1, 0, 0]),
];

/// With the amoebot in the middle each of the ring stands at a border, and is eroded;
/// the middle leads.
static DISC_ERODES: [Turn; 8] = [
    (0, Idle),
    (1, Done("1 none body 1 4 3 4 3 0 + 0 0")),
    (2, Done("1 none body 2 3 4 3 4 0 + 0 0")),
    (3, Done("1 none body 3 2 4 2 4 0 + 0 0")),
    (4, Done("1 none body 4 2 3 2 3 0 + 0 0")),
    (5, Done("1 none body 5 3 2 3 2 0 + 0 0")),
    (6, Done("1 none body 6 4 2 4 2 0 + 0 0")),
    (0, Done("0 none body 0 3 3 3 3 0 + 1 1")),
];

static ROW: [Body; 3] = [
    ((3, 3), (3, 3), 0, Plus, [1, 6, 0]),
    ((4, 3), (4, 3), 0, Plus, [0, 6, 6]),
    ((5, 3), (5, 3), 0, Plus, [0, 6, 6]),
];

/// The amoebot beside the seed retires where it stands,
/// and the third one goes round both to its place.
static HEXAGON_FORMS: [Turn; 45] = [
    (0, Idle),
    (1, Done("0 none body 1 4 3 4 3 0 + 3 6 6")),
    (2, Done("1 none body 2 5 3 5 3 0 + 2 3 6")),
    (0, Idle),
    (1, Done("2 none body 1 4 3 4 3 0 + 4 6 2")),
    (2, Done("0 none body 2 5 3 5 3 0 + 3 6 6")),
    (0, Idle),
    (1, Idle),
    (
        2,
        Done("3 expand head 4 spot 5 2 2 body 2 5 2 5 3 0 + 3 6 6"),
    ),
    (0, Idle),
    (1, Idle),
    (
        2,
        Done("5 contract tail spot 5 3 empty body 2 5 2 5 2 0 + 3 6 6"),
    ),
    (0, Idle),
    (1, Idle),
    (
        2,
        Done("3 expand head 3 spot 4 2 2 body 2 4 2 5 2 0 + 3 6 6"),
    ),
    (0, Idle),
    (1, Idle),
    (
        2,
        Done("5 contract tail spot 5 2 empty body 2 4 2 4 2 0 + 3 6 6"),
    ),
    (0, Idle),
    (1, Idle),
    (
        2,
        Done("3 expand head 3 spot 3 2 2 body 2 3 2 4 2 0 + 3 6 6"),
    ),
    (0, Idle),
    (1, Idle),
    (
        2,
        Done("5 contract tail spot 4 2 empty body 2 3 2 3 2 0 + 3 6 6"),
    ),
    (0, Idle),
    (1, Idle),
    (
        2,
        Done("3 expand head 2 spot 2 3 2 body 2 2 3 3 2 0 + 3 6 6"),
    ),
    (0, Idle),
    (1, Idle),
    (
        2,
        Done("5 contract tail spot 3 2 empty body 2 2 3 2 3 0 + 3 6 6"),
    ),
    (0, Idle),
    (1, Idle),
    (
        2,
        Done("3 expand head 1 spot 2 4 2 body 2 2 4 2 3 0 + 3 6 6"),
    ),
    (0, Idle),
    (1, Idle),
    (
        2,
        Done("5 contract tail spot 2 3 empty body 2 2 4 2 4 0 + 3 6 6"),
    ),
    (0, Idle),
    (1, Idle),
    (
        2,
        Done("3 expand head 0 spot 3 4 2 body 2 3 4 2 4 0 + 3 6 6"),
    ),
    (0, Idle),
    (1, Idle),
    (
        2,
        Done("5 contract tail spot 2 4 empty body 2 3 4 3 4 0 + 3 6 6"),
    ),
    (0, Idle),
    (1, Idle),
    (2, Done("2 none body 2 3 4 3 4 0 + 4 6 3")),
];

static TRIANGLE: [Body; 3] = [
    ((3, 3), (3, 3), 0, Plus, [1, 6, 0]),
    ((4, 3), (4, 3), 0, Plus, [4, 6, 2]),
    ((3, 4), (3, 4), 0, Plus, [4, 6, 3]),
];

static TWO_APART: [Body; 2] = [
    ((5, 3), (5, 3), 0, Plus, [0, 0, 0]),
    ((3, 3), (3, 3), 0, Plus, [0, 0, 0]),
];

/// Both go to the right, in turn, until the border or the other one is behind the port.
static LINE_GATHERS: [Turn; 16] = [
    (0, Done("0 expand head 0 spot 6 3 0 body 0 6 3 5 3 0 +")),
    (1, Done("0 expand head 0 spot 4 3 1 body 1 4 3 3 3 0 +")),
    (0, Done("1 contract tail spot 5 3 empty body 0 6 3 6 3 0 +")),
    (1, Done("1 contract tail spot 3 3 empty body 1 4 3 4 3 0 +")),
    (0, Done("0 expand head 0 spot 7 3 0 body 0 7 3 6 3 0 +")),
    (1, Done("0 expand head 0 spot 5 3 1 body 1 5 3 4 3 0 +")),
    (0, Done("1 contract tail spot 6 3 empty body 0 7 3 7 3 0 +")),
    (1, Done("1 contract tail spot 4 3 empty body 1 5 3 5 3 0 +")),
    (0, Idle),
    (1, Done("0 expand head 0 spot 6 3 1 body 1 6 3 5 3 0 +")),
    (0, Idle),
    (1, Done("1 contract tail spot 5 3 empty body 1 6 3 6 3 0 +")),
    (0, Idle),
    (1, Idle),
    (0, Idle),
    (1, Idle),
];

static AT_THE_BORDER: [Body; 2] = [
    ((7, 3), (7, 3), 0, Plus, [0, 0, 0]),
    ((6, 3), (6, 3), 0, Plus, [0, 0, 0]),
];

#[test]
fn a_ring_of_candidates_stays(rt: HostRuntime) -> Result<(), Fail> {
    let last = runs(&rt, rt.alloc(), EROSION, &RING, &RING_STAYS)?;
    let first = world_of(rt.alloc(), [1, 1, 0, 0, 0, 0, 0, 0], &RING)?;
    assert!(rt; last.same(&first));
    Ok(())
}

#[test]
fn a_disc_is_eroded_to_its_leader(rt: HostRuntime) -> Result<(), Fail> {
    runs(&rt, rt.alloc(), EROSION, &DISC, &DISC_ERODES)?;
    Ok(())
}

#[test]
fn a_hexagon_is_formed(rt: HostRuntime) -> Result<(), Fail> {
    let last = runs(&rt, rt.alloc(), HEXAGON, &ROW, &HEXAGON_FORMS)?;
    let formed = world_of(rt.alloc(), [4, 6, 6, 0, 0, 0, 0, 0], &TRIANGLE)?;
    assert!(rt; last.same(&formed));
    Ok(())
}

#[test]
fn a_row_gathers_at_the_border(rt: HostRuntime) -> Result<(), Fail> {
    let last = runs(&rt, rt.alloc(), LINE, &TWO_APART, &LINE_GATHERS)?;
    let gathered = world_of(rt.alloc(), [0; 8], &AT_THE_BORDER)?;
    assert!(rt; last.same(&gathered));
    Ok(())
}
