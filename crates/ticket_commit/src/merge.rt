//! The merge of the callers' own lists by place.
ghost use Rattle.std.specs.Prelude.{◌≡◌, ◌++◌, List};
ghost use Rattle.amoebot_state.specs.Steps.{Run};
ghost use Rattle.amoebot_state.specs.declared.verdict.Entry.{Entry as Committed};
ghost use Rattle.claim_core.specs.Merges.{IsMerge};
ghost use Rattle.ticket_commit.specs.OwnLists.{entry_lists, HasMerge, IsListAt};

use crate::own::OwnList;
use amoebot_state::{Decider, World};
use claim_core::Journal;

/// Adds the merge of the callers' own lists by place to a journal that has room for it,
/// and makes the world the last one of its run.
/// The decider is there for the contract alone.
/// It takes no memory.
pub(crate) fn merge<D: Decider>(
    _decider: &D,
    world: &mut World,
    journal: &mut Journal,
    lists: &mut [OwnList],
)
    requires { HasMerge (D.verdict _decider.now) world.old (entry_lists lists.old) journal.old.spare }
    ensures first { journal.new.first ≡ journal.old.first }
    ensures entries { (merged : List Committed) → IsMerge (entry_lists lists.old) merged
        → journal.new.entries ≡ journal.old.entries ++ merged }
    ensures world { (merged : List Committed) → IsMerge (entry_lists lists.old) merged
        → Run (D.verdict _decider.now) world.old merged world.new }
{
    let mut place = 0;
    let mut last = 0;
    while let Some(caller) = list_at(lists, place, last) {
        let entry = lists[caller].take();
        world.apply(&entry.patch);
        journal.push(entry);
        place += 1;
        last = caller;
    }
}

/// The list that begins with a place. The search begins with this list, and then goes through all.
#[inline(always)]
fn list_at(lists: &[OwnList], place: u32, first: usize) -> Option<usize>
    ensures { IsListAt (entry_lists lists.now) place result }
{
    if first < lists.len() && lists[first].begins_with(place) {
        return Some(first);
    }
    let mut caller = 0;
    for own in lists {
        if own.begins_with(place) {
            return Some(caller);
        }
        caller += 1;
    }
    None
}
