//! What a gate says of calls that are made one after another.
ghost use Rattle.std.specs.Prelude.{◌≤◌};
ghost use Rattle.claim_core.specs.Limits.{most_callers};

use activation::Gate;
use std::test::Fail;
use turn_workers::MeetGate;

/// For how many callers a gate is, how many looks it allows,
/// which callers come to it in which turns, and whether all have met.
static CALLS: [(u8, u64, &[(u8, u32)], bool); 9] = [
    // One of two meets nobody. The second finds both, but the first has used up its looks.
    (2, 10, &[(0, 0)], false),
    (2, 10, &[(0, 0), (1, 0)], false),
    // Nobody comes.
    (1, 10, &[], false),
    (16, 10, &[], false),
    // A caller alone meets itself in each turn.
    (1, 1, &[(0, 0)], true),
    (1, 1, &[(0, 0), (0, 1), (0, 7)], true),
    // A number that is no caller's is ignored.
    (1, 1, &[(1, 0), (200, 5)], false),
    (1, 1, &[(1, 0), (200, 5), (0, 0)], true),
    // There are no looks.
    (1, 0, &[(0, 0)], false),
];

fn are_met(callers: u8, looks: u64, calls: &[(u8, u32)]) -> bool
    requires { (1 ≤ callers) × (callers ≤ most_callers) }
{
    let gate = MeetGate::new(callers, looks);
    for (caller, turn) in calls {
        gate.claimed(*caller, *turn);
    }
    gate.met()
}

#[test]
fn a_gate_is_met_where_all_its_callers_find_each_other(rt: HostRuntime) -> Result<(), Fail> {
    for (callers, looks, calls, answer) in &CALLS {
        if *callers == 0 || *callers > 16 {
            Err("callers")?;
        }
        assert!(rt; are_met(*callers, *looks, calls) == *answer);
    }
    Ok(())
}
