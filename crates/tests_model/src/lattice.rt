//! Nodes, directions and areas.

use std::test::Fail;
use tri_lattice::{Area, Dir, Node, adjacent, distance};

#[test]
fn the_neighbours_of_2_3_stand_in_the_order_of_their_directions(rt: HostRuntime) {
    assert!(rt;
        Node { x: 2, y: 3 }.ring()
            == [
                Node { x: 3, y: 3 },
                Node { x: 2, y: 4 },
                Node { x: 1, y: 4 },
                Node { x: 1, y: 3 },
                Node { x: 2, y: 2 },
                Node { x: 3, y: 2 },
            ]
    );
}

#[test]
fn a_step_and_the_opposite_step_lead_back(rt: HostRuntime) -> Result<(), Fail> {
    let start = Node { x: 2, y: 3 };
    let dir = Dir::new(2).ok_or("a direction")?;
    let next = start.step(dir);
    assert!(rt; (next, next.step(dir.opposite())) == (Node { x: 1, y: 4 }, start));
    assert!(rt; (dir.opposite().number(), dir.turned(5).number()) == (5, 1));
    assert!(rt; Dir::new(6).is_none());
    Ok(())
}

#[test]
fn neighbours_tell_their_direction(rt: HostRuntime) {
    let start = Node { x: 2, y: 3 };
    assert!(rt;
        [
            adjacent(start, Node { x: 3, y: 2 }),
            adjacent(start, Node { x: 3, y: 4 }),
            adjacent(start, start)
        ] == [Dir::new(5), None, None]
    );
    assert!(rt;
        [
            distance(start, Node { x: 3, y: 4 }),
            distance(start, Node { x: 5, y: 1 })
        ] == [2, 3]
    );
}

#[test]
fn an_area_numbers_its_nodes_row_by_row(rt: HostRuntime) -> Result<(), Fail> {
    let area = Area::new(0, 0, 8, 8).ok_or("an area")?;
    assert!(rt;
        [
            area.index(Node { x: 2, y: 3 }),
            area.index(Node { x: 8, y: 3 })
        ] == [Some(26), None]
    );
    assert!(rt; (area.node(26), area.size()) == (Node { x: 2, y: 3 }, 64));
    let low = Area::new(-4, -2, 3, 5).ok_or("an area")?;
    assert!(rt;
        (low.index(Node { x: -2, y: 2 }), low.node(14)) == (Some(14), Node { x: -2, y: 2 })
    );
    assert!(rt; (low.x0(), low.y0(), low.w(), low.h()) == (-4, -2, 3, 5));
    Ok(())
}

#[test]
fn an_area_has_bounds(rt: HostRuntime) {
    assert!(rt; Area::new(-4096, 4096, 1, 128).is_some());
    assert!(rt; Area::new(4097, 0, 8, 8).is_none());
    assert!(rt; Area::new(0, -4097, 8, 8).is_none());
    assert!(rt; Area::new(0, 0, 0, 8).is_none());
    assert!(rt; Area::new(0, 0, 8, 129).is_none());
}
