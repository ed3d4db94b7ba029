use amoebot_state::World;
use claim_core::{Journal, Lists, Mark, Marks};
use std::process::Abort;
use std::test::Fail;
use tri_lattice::Area;

#[test]
fn each_caller_goes_through_its_list_again(rt: HostRuntime) -> Result<(), Fail> {
    let alloc = rt.alloc();
    let mut lists = Lists::new(alloc, 3).ok().ok_or("no lists")?;
    lists.add(alloc, &[7, 4]).ok().ok_or("no list")?;
    lists.add(alloc, &[9]).ok().ok_or("no list")?;
    assert!(rt; lists.callers() == 2);
    assert!(rt; lists.turns() == 3);
    assert!(rt; lists.bot(0, 0) == 7);
    assert!(rt; lists.bot(0, 1) == 4);
    assert!(rt; lists.bot(0, 2) == 7);
    assert!(rt; lists.bot(1, 2) == 9);
    Ok(())
}

#[test]
fn room_that_is_there_is_kept(rt: HostRuntime) -> Result<(), Fail> {
    let alloc = rt.alloc();
    let area = Area::new(0, 0, 2, 2).ok_or("no area")?;
    let world = World::new(alloc, area, [0; 8], &[]).ok().ok_or("no world")?;
    let mut journal = Journal::make(alloc, &world).ok().ok_or("no journal")?;
    journal.reserve(alloc, 2).ok().ok_or("no room")?;
    journal.reserve(alloc, 1).ok().ok_or("no room")?;
    assert!(rt; journal.entries().len() == 0);
    assert!(rt; journal.first().bots() == 0);
    Ok(())
}

#[test]
fn marks_are_those_of_their_caller_in_order(rt: HostRuntime) -> Result<(), Fail> {
    let mut marks = Marks::make(rt.alloc(), 2, 2).ok().ok_or("no marks")?;
    marks.add(1, Mark::Idle { place: 0 });
    marks.add(0, Mark::Done { place: 0 });
    marks.add(1, Mark::Done { place: 1 });
    assert!(rt; marks.callers() == 2);
    assert!(rt; marks.count(0) == 1);
    assert!(rt; marks.count(1) == 2);
    assert!(rt; marks.mark(0, 0) == Mark::Done { place: 0 });
    assert!(rt; marks.mark(1, 0) == Mark::Idle { place: 0 });
    assert!(rt; marks.mark(1, 1) == Mark::Done { place: 1 });
    Ok(())
}
