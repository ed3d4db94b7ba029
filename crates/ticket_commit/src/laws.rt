//! What holds of own lists. The function does nothing: its clauses are the laws.
ghost use Rattle.ticket_commit.specs.Laws.{OwnListIsOne, SmallOwn, SmallUnpacked};

use amoebot_state::Decider;

/// A seat has at most one own list. The first of three callers, which has committed twice, has one.
pub fn own_list_is_one<D: Decider>(_decider: &D)
    ensures one { OwnListIsOne D.verdict }
    ensures example { SmallOwn D.verdict }
{}

/// How three entries of one caller lie in memory.
pub fn own_list_is_unpacked()
    ensures { SmallUnpacked }
{}
