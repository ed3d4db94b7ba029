//! The callers' lists of a sample.

ghost use Rattle.std.specs.Prelude.{◌≡◌, ◌<◌, IfOk};
ghost use Rattle.run_sample.specs.Callers.{ids_of, sample_lists};

use amoebot_state::NoMemory;
use claim_core::Lists;
use std::alloc::Global;

/// The lists of four callers, 4,000 turns each: list `c` has the ids that are `c` modulo 4,
/// in rising order.
pub(crate) fn lists(alloc: Global) -> Result<Lists, NoMemory>
    ensures { IfOk result (λ lists. lists ≡ sample_lists) }
{
    let mut lists = Lists::new(alloc, 4000)?;
    for caller in 0..4 {
        let ids = ids_of(alloc, caller)?;
        lists.add(alloc, ids.as_slice())?;
    }
    Ok(lists)
}

/// The ids of a caller.
fn ids_of(alloc: Global, caller: u16) -> Result<Vec<u16>, NoMemory>
    ensures { IfOk result (λ ids. ids.items ≡ ids_of caller) }
{
    let mut ids = Vec::new(alloc);
    for id in 0..150 {
        if id % 4 == caller {
            ids.push(id)?;
        }
    }
    Ok(ids)
}
