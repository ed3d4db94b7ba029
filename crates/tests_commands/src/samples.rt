use run_sample::make_sample;
use shape_checks::is_connected;
use std::test::Fail;

#[test]
fn the_sample_of_1_has_the_values_of_another_program(rt: HostRuntime) -> Result<(), Fail> {
    let sample = make_sample(rt.alloc(), 1)?;
    let world = &sample.world;
    assert!(rt; world.bots() == 150);
    assert!(rt; is_connected(rt.alloc(), world)?);
    let first = [0, 2, 1, 2, 5, 2, 0, 4, 2, 4];
    for id in 0..10 {
        assert!(rt; world.bot(id).rot == first[usize::from(id)], "{id}");
    }
    let last = [
        (67, 69, 0),
        (58, 63, 5),
        (69, 65, 5),
        (57, 68, 2),
        (67, 58, 2),
        (60, 70, 2),
        (64, 70, 4),
        (65, 70, 1),
        (64, 71, 2),
        (71, 58, 4),
    ];
    for k in 0..10 {
        let bot = world.bot(140 + k);
        assert!(rt;
            (bot.head.x, bot.head.y, bot.rot) == last[usize::from(k)],
            "{k}"
        );
    }
    let lists = &sample.lists;
    assert!(rt; lists.callers() == 4);
    assert!(rt; lists.turns() == 4000);
    assert!(rt; lists.bot(3, 0) == 3);
    assert!(rt; lists.bot(3, 36) == 147);
    assert!(rt; lists.bot(3, 37) == 3);
    Ok(())
}
