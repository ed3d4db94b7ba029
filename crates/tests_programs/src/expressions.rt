//! Expressions, each on an amoebot of one shape, with its value or its failure,
//! worked out by hand from the language's table of values.
//!
//! The variables are x and y.
//! Amoebot 0 is contracted on (3, 3).
//! Behind its port `head 0` is the head of amoebot 1, which is expanded to the left from (5, 3).
//! Behind its port `head 3` is the contracted amoebot 2, which goes round against the others.
//! The contracted amoebot 4 is behind the port `tail 0` of amoebot 1.
//! Amoebot 3 is expanded to the right from (0, 1), at the edge of the area, and has no neighbour.

use crate::fixtures::{Body, runner_of, world_of};
use amoebot_state::Chir::{Minus, Plus};
use amoebot_state::Failure::{self, NoChoice, NoNeighbour, NoPort, NotExpanded};
use amoebot_state::{Decider, Moved, Verdict, World};
use std::alloc::Global;
use std::process::Abort;
use std::test::Fail;

static SHAPE: [Body; 5] = [
    ((3, 3), (3, 3), 0, Plus, [4, 6, 0]),
    ((4, 3), (5, 3), 0, Plus, [2, 0, 0]),
    ((2, 3), (2, 3), 2, Minus, [7, 0, 0]),
    ((1, 1), (0, 1), 1, Plus, [0, 8, 0]),
    ((6, 3), (6, 3), 0, Plus, [1, 5, 0]),
];

/// The value of an expression, or its failure.
#[derive(Clone, Copy)]
pub enum Value {
    True,
    False,
    Fails(Failure),
}

use Value::{Fails, False, True};

/// An expression, the amoebot that asks, and what it has.
pub type Asked = (&'static str, u16, Value);

/// Words, and what they join.
static JOINED: [Asked; 33] = [
    ("true", 0, True),
    ("false", 0, False),
    ("contracted", 0, True),
    ("contracted", 1, False),
    ("expanded", 0, False),
    ("expanded", 1, True),
    ("not contracted", 0, False),
    ("not contracted", 1, True),
    ("not linked tail 0", 0, Fails(NoPort)),
    // `and` stops at the first false element
    ("contracted and true and not expanded", 0, True),
    ("contracted and false", 0, False),
    ("false and linked tail 0", 0, False),
    ("true and false and linked tail 0", 0, False),
    ("true and linked tail 0", 0, Fails(NoPort)),
    ("linked tail 0 and false", 0, Fails(NoPort)),
    ("linked tail 0 and head 1 . x = 0", 0, Fails(NoPort)),
    ("head 1 . x = 0 and linked tail 0", 0, Fails(NoNeighbour)),
    // `or` stops at the first true one
    ("expanded or false or contracted", 0, True),
    ("expanded or false", 0, False),
    ("true or linked tail 0", 0, True),
    ("false or true or linked tail 0", 0, True),
    ("false or linked tail 0", 0, Fails(NoPort)),
    ("linked tail 0 or true", 0, Fails(NoPort)),
    ("linked tail 0 or head 1 . x = 0", 0, Fails(NoPort)),
    ("head 1 . x = 0 or linked tail 0", 0, Fails(NoNeighbour)),
    // one in the other
    ("false and ( true or linked tail 0 )", 0, False),
    ("false and false or true", 0, True),
    ("false and ( false or true )", 0, False),
    ("true or false and linked tail 0", 0, True),
    ("not false and false", 0, False),
    ("not ( false and false )", 0, True),
    // a comparison asks the left sum first
    ("head 1 . x = tail 0 . x", 0, Fails(NoNeighbour)),
    ("tail 0 . x = head 1 . x", 0, Fails(NoPort)),
];

/// What goes through the ports of a set.
static THROUGH_PORTS: [Asked; 44] = [
    // `any` stops at the first port of which it is true
    ("any p in ports ( p . x = 2 )", 0, True),
    ("any p in ports ( p . x = 7 )", 0, True),
    ("any p in ports ( p . x = 1 )", 0, False),
    ("any p in ports ( true )", 3, False),
    ("any p in ports ( p . x = 2 or turn p 1 . x = 0 )", 0, True),
    (
        "any p in ports ( p . x = 7 or turn p 1 . x = 0 )",
        0,
        Fails(NoNeighbour),
    ),
    // `all` stops at the first port of which it is false
    ("all p in ports ( p . x > 1 )", 0, True),
    ("all p in ports ( p . x = 2 )", 0, False),
    ("all p in ports ( p . x = 7 )", 0, False),
    ("all p in ports ( false )", 3, True),
    (
        "all p in ports ( p . x = 7 and turn p 1 . x = 0 )",
        0,
        False,
    ),
    (
        "all p in ports ( p . x = 2 and turn p 1 . x = 0 )",
        0,
        Fails(NoNeighbour),
    ),
    // `first`
    ("dir first p in ports ( true ) = 0", 0, True),
    ("dir first p in ports ( p . x = 7 ) = 3", 0, True),
    ("dir first p in free ( true ) = 1", 0, True),
    ("dir first p in ports ( p . x = 0 ) = 0", 0, Fails(NoChoice)),
    ("linked first p in ports ( true )", 3, Fails(NoChoice)),
    (
        "dir first p in ports ( p . x = 2 or turn p 1 . x = 0 ) = 0",
        0,
        True,
    ),
    (
        "linked first p in ports ( turn p 1 . x = 0 )",
        0,
        Fails(NoNeighbour),
    ),
    // the head's ports come before the tail's, and each end's by their directions
    ("at_head first p in ports ( true )", 1, True),
    ("dir first p in ports ( not at_head p ) = 0", 1, True),
    ("dir first p in free ( true ) = 0", 3, True),
    ("dir first p in free ( dir p > 1 ) = 3", 3, True),
    (
        "dir first p in free ( not at_head p and dir p > 0 ) = 3",
        3,
        True,
    ),
    // `count`
    ("count p in ports ( true ) = 2", 0, True),
    ("count p in ports ( true ) = 2", 1, True),
    ("count p in ports ( true ) = 0", 3, True),
    ("count p in ports ( p . x = 7 ) = 1", 0, True),
    ("count p in ports ( p . x = 0 ) = 0", 0, True),
    ("count p in ports ( false ) = 0", 0, True),
    (
        "count p in ports ( turn p 1 . x = 0 ) = 0",
        0,
        Fails(NoNeighbour),
    ),
    (
        "count p in ports ( p . x = 2 or turn p 1 . x = 0 ) = 1",
        0,
        Fails(NoNeighbour),
    ),
    // the free ports lead into the area
    ("count p in free ( true ) = 4", 0, True),
    ("count p in free ( true ) = 8", 1, True),
    ("count p in free ( true ) = 5", 2, True),
    ("count p in free ( true ) = 8", 3, True),
    ("count p in free ( not at_head p ) = 3", 3, True),
    ("any p in free ( not at_head p and dir p = 1 )", 3, False),
    // one in the other
    (
        "any p in ports ( any q in free ( dir q = dir p + 1 ) )",
        0,
        True,
    ),
    (
        "all p in ports ( any q in ports ( q . x > p . x ) )",
        0,
        False,
    ),
    (
        "any p in ports ( all q in ports ( p . x >= q . x ) )",
        0,
        True,
    ),
    (
        "dir first p in ports ( count q in free ( dir q > dir p ) = 2 ) = 3",
        0,
        True,
    ),
    (
        "count p in ports ( dir first q in free ( dir q > dir p ) = dir p + 1 ) = 2",
        0,
        True,
    ),
    (
        "count p in free ( dir first q in free ( dir q > dir p ) = dir p + 1 ) = 2",
        0,
        Fails(NoChoice),
    ),
];

/// Ports, and what is asked of one.
static PORTS: [Asked; 36] = [
    // a port by its end and a number, or the value of a variable
    ("dir head 4 = 4", 0, True),
    ("dir head x = 4", 0, True),
    ("linked head y", 0, Fails(NoPort)),
    ("linked head y", 3, Fails(NoPort)),
    ("linked head y", 4, False),
    ("at_head tail y", 1, False),
    // `turn`
    ("dir turn head 4 3 = 1", 0, True),
    ("dir turn tail 2 5 = 1", 1, True),
    ("dir turn turn head 5 2 0 = 1", 0, True),
    ("linked turn head y 1", 0, Fails(NoPort)),
    ("at_head turn tail 5 1", 1, False),
    // a pair that is no port may be turned to one that is, and fails where it is asked
    ("linked turn head 0 3", 1, True),
    ("linked turn tail 0 1", 0, Fails(NoPort)),
    ("linked turn tail 0 3", 1, Fails(NoPort)),
    // `linked`
    ("linked head 0", 0, True),
    ("linked head 1", 0, False),
    ("linked tail 0", 0, Fails(NoPort)),
    ("linked head 0", 1, Fails(NoPort)),
    ("linked tail 0", 1, True),
    ("linked head 2", 2, True),
    ("linked tail 2", 3, False),
    // `free`
    ("free head 1", 0, True),
    ("free head 0", 0, False),
    ("free tail 0", 3, True),
    ("free tail 2", 3, False),
    ("free tail 0", 0, Fails(NoPort)),
    ("free head 2", 3, Fails(NoPort)),
    // `at_head`
    ("at_head head 0", 0, True),
    ("at_head head 3", 1, True),
    ("at_head tail 0", 1, False),
    ("at_head tail 0", 0, Fails(NoPort)),
    ("at_head tail 3", 1, Fails(NoPort)),
    ("at_head head y", 0, Fails(NoPort)),
    // `dir`
    ("dir tail 2 = 2", 1, True),
    ("dir tail 1 = 1", 0, Fails(NoPort)),
    ("dir head 0 = 0", 1, Fails(NoPort)),
];

/// What is asked of the amoebot behind a port.
static PEERS: [Asked; 16] = [
    // `peer_expanded`
    ("peer_expanded head 0", 0, True),
    ("peer_expanded head 3", 0, False),
    ("peer_expanded tail 0", 0, Fails(NoPort)),
    ("peer_expanded head 1", 0, Fails(NoNeighbour)),
    // `peer_head`
    ("peer_head head 0", 0, True),
    ("peer_head head 3", 0, True),
    ("peer_head head 3", 4, False),
    ("peer_head tail 0", 0, Fails(NoPort)),
    ("peer_head head 1", 0, Fails(NoNeighbour)),
    // `peer_dir`
    ("peer_dir head 0 = 3", 0, True),
    ("peer_dir head 3 = 2", 0, True),
    ("peer_dir head 3 = 0", 4, True),
    ("peer_dir tail 0 = 3", 1, True),
    ("peer_dir head 2 = 3", 2, True),
    ("peer_dir tail 0 = 3", 0, Fails(NoPort)),
    ("peer_dir head 1 = 3", 0, Fails(NoNeighbour)),
];

/// What is asked of a port fails first as the port does.
static FAILING_PORTS: [Asked; 9] = [
    ("linked first p in ports ( false )", 0, Fails(NoChoice)),
    ("free first p in ports ( false )", 0, Fails(NoChoice)),
    ("at_head first p in ports ( false )", 0, Fails(NoChoice)),
    ("dir first p in ports ( false ) = 0", 0, Fails(NoChoice)),
    (
        "peer_expanded first p in ports ( false )",
        0,
        Fails(NoChoice),
    ),
    ("peer_head first p in ports ( false )", 0, Fails(NoChoice)),
    (
        "peer_dir first p in ports ( false ) = 0",
        0,
        Fails(NoChoice),
    ),
    (
        "linked turn first p in ports ( false ) 1",
        0,
        Fails(NoChoice),
    ),
    (
        "any p in ports ( linked turn first q in free ( false ) 1 )",
        0,
        Fails(NoChoice),
    ),
];

/// Sums, and their comparisons.
static SUMS: [Asked; 44] = [
    // numbers, with a minus or without
    ("1 + 2 - 3 + 4 = 4", 0, True),
    ("- 3 + 1 = - 2", 0, True),
    ("65535 + 65535 - 1 = 65535 + 65534", 0, True),
    ("- 65535 - 65535 < - 65535", 0, True),
    ("5 - 7 < 0", 0, True),
    // variables
    ("x = 4", 0, True),
    ("x - y = - 2", 0, True),
    ("x = 2", 1, True),
    ("head 0 . x = 2", 0, True),
    ("head 3 . x - head 0 . x = 5", 0, True),
    ("tail 0 . y = 5", 1, True),
    ("head 1 . x = 0", 0, Fails(NoNeighbour)),
    ("tail 0 . x = 0", 0, Fails(NoPort)),
    ("head y . x = 0", 0, Fails(NoPort)),
    ("first p in ports ( false ) . x = 0", 0, Fails(NoChoice)),
    // from the left to the right
    ("head 1 . x + tail 0 . x = 0", 0, Fails(NoNeighbour)),
    ("tail 0 . x - head 1 . x = 0", 0, Fails(NoPort)),
    ("inner - head 1 . x = 0", 0, Fails(NotExpanded)),
    ("head 1 . x - inner = 0", 0, Fails(NoNeighbour)),
    // `inner`
    ("inner = 3", 1, True),
    ("inner = 5", 3, True),
    ("inner = 0", 0, Fails(NotExpanded)),
    // `mod6`
    ("mod6 ( 5 ) = 5", 0, True),
    ("mod6 ( 6 ) = 0", 0, True),
    ("mod6 ( 65535 ) = 3", 0, True),
    ("mod6 ( - 1 ) = 5", 0, True),
    ("mod6 ( - 6 ) = 0", 0, True),
    ("mod6 ( - 13 ) = 5", 0, True),
    ("mod6 ( x - y ) = 4", 0, True),
    (
        "mod6 ( inner - dir tail 0 + peer_dir tail 0 + 3 ) = 3",
        1,
        True,
    ),
    ("mod6 ( mod6 ( - 1 ) + 2 ) = 1", 0, True),
    ("mod6 ( inner ) = 0", 0, Fails(NotExpanded)),
    // comparisons
    ("x = 5", 0, False),
    ("x != 5", 0, True),
    ("x != 4", 0, False),
    ("x < 5", 0, True),
    ("x < 4", 0, False),
    ("x <= 4", 0, True),
    ("x <= 3", 0, False),
    ("x > 3", 0, True),
    ("x > 4", 0, False),
    ("x >= 4", 0, True),
    ("x >= 5", 0, False),
    ("- x <= - 4", 0, True),
];

/// Comparisons that need no sum and the same with one, and ports that are a name or turned once
/// and the same turned twice, all asked by amoebot 0.
static IN_BOTH_FORMS: [(&'static str, &'static str, Value); 22] = [
    ("x = 4", "x + 0 = 4", True),
    ("x = 5", "x + 0 = 5", False),
    ("x != 5", "x + 0 != 5", True),
    ("x != 4", "x + 0 != 4", False),
    ("x < 5", "x + 0 < 5", True),
    ("x < 4", "x + 0 < 4", False),
    ("x <= 4", "x + 0 <= 4", True),
    ("x <= 3", "x + 0 <= 3", False),
    ("x > 3", "x + 0 > 3", True),
    ("x > 4", "x + 0 > 4", False),
    ("x >= 4", "x + 0 >= 4", True),
    ("x >= 5", "x + 0 >= 5", False),
    (
        "any p in ports ( p . x = 7 )",
        "any p in ports ( 0 + p . x = 7 )",
        True,
    ),
    (
        "any p in ports ( p . x = 1 )",
        "any p in ports ( 0 + p . x = 1 )",
        False,
    ),
    (
        "all p in ports ( p . x > y )",
        "all p in ports ( p . x > y + 0 )",
        False,
    ),
    (
        "count p in ports ( p . x > 2 ) = 1",
        "count p in ports ( p . x > 1 + 1 ) = 1",
        True,
    ),
    (
        "all p in ports ( turn p 3 . x > 1 )",
        "all p in ports ( turn turn p 1 2 . x > 1 )",
        True,
    ),
    (
        "dir first p in ports ( turn p 3 . x = 2 ) = 3",
        "dir first p in ports ( turn turn p 4 5 . x = 2 ) = 3",
        True,
    ),
    (
        "any p in ports ( turn p 1 . x = 0 )",
        "any p in ports ( turn turn p 2 5 . x = 0 )",
        Fails(NoNeighbour),
    ),
    (
        "all p in ports ( linked turn p 3 )",
        "all p in ports ( linked turn turn p 1 2 )",
        True,
    ),
    (
        "any p in ports ( free turn p 3 )",
        "any p in ports ( free turn turn p 1 2 )",
        False,
    ),
    (
        "all p in ports ( free turn p 1 )",
        "all p in ports ( free turn turn p 0 1 )",
        True,
    ),
];

/// Each expression has what the table says: its action is run and changes nothing,
/// or it is not run, or the turn fails.
fn are_valued(rt: &impl Abort, alloc: Global, table: &[Asked]) -> Result<(), Fail> {
    let world = world_of(alloc, [9, 9, 0, 0, 0, 0, 0, 0], &SHAPE)?;
    for asked in table {
        is_valued(rt, alloc, &world, asked)?;
    }
    Ok(())
}

fn is_valued(rt: &impl Abort, alloc: Global, world: &World, asked: &Asked) -> Result<(), Fail> {
    let (expression, bot, value) = *asked;
    let text = format!(in alloc; "program var x 9 var y 9 action a when {expression} end")?;
    let runner = runner_of(alloc, text.as_str())?;
    assert!(rt; bot < world.bots());
    match (runner.decide(&world.found(bot)), value) {
        (Verdict::Change(change), True) => {
            assert!(rt;
                change.moved == Moved::None && change.patch.triples().is_empty(),
                "{expression}"
            );
        }
        (Verdict::Idle, False) => {}
        (Verdict::Failed(failure), Fails(wanted)) => assert!(rt; failure == wanted, "{expression}"),
        _ => panic!(rt; "{expression}"),
    }
    Ok(())
}

#[test]
fn words_and_what_they_join_have_these_values(rt: HostRuntime) -> Result<(), Fail> {
    are_valued(&rt, rt.alloc(), &JOINED)
}

#[test]
fn what_goes_through_the_ports_of_a_set_has_these_values(rt: HostRuntime) -> Result<(), Fail> {
    are_valued(&rt, rt.alloc(), &THROUGH_PORTS)
}

#[test]
fn what_is_asked_of_a_port_has_these_values(rt: HostRuntime) -> Result<(), Fail> {
    are_valued(&rt, rt.alloc(), &PORTS)
}

#[test]
fn what_is_asked_of_the_amoebot_behind_a_port_has_these_values(
    rt: HostRuntime,
) -> Result<(), Fail> {
    are_valued(&rt, rt.alloc(), &PEERS)
}

#[test]
fn what_is_asked_of_a_port_fails_as_the_port_does(rt: HostRuntime) -> Result<(), Fail> {
    are_valued(&rt, rt.alloc(), &FAILING_PORTS)
}

#[test]
fn sums_and_their_comparisons_have_these_values(rt: HostRuntime) -> Result<(), Fail> {
    are_valued(&rt, rt.alloc(), &SUMS)
}

#[test]
fn both_forms_of_an_expression_have_this_value(rt: HostRuntime) -> Result<(), Fail> {
    let world = world_of(rt.alloc(), [9, 9, 0, 0, 0, 0, 0, 0], &SHAPE)?;
    for (short, long, value) in &IN_BOTH_FORMS {
        is_valued(&rt, rt.alloc(), &world, &(*short, 0, *value))?;
        is_valued(&rt, rt.alloc(), &world, &(*long, 0, *value))?;
    }
    Ok(())
}
