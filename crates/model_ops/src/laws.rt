ghost use Rattle.model_ops.specs.Laws.{OneArcTestIsOneArc, ReachedKeepsRest, ReachedDiffIsExact};
ghost use Rattle.model_ops.specs.Laws.{ReachedLeadsAlso, ShownMeetsTheSame, OperationsKeepConnected};
ghost use Rattle.model_ops.specs.Laws.{ReachedStaysConnected, UnguardedSplits, PeerLooksBack, CopiesWork};
ghost use Rattle.model_ops.specs.Laws.{CopyStandsForWorlds, ActsKeepDeciderLaws};
ghost use Rattle.model_ops.specs.Laws.{GuardedDecidersStayConnected, OnlyWallsBlock};

/// The test of one arc answers whether a ring is one arc.
pub fn one_arc_test_is_one_arc()
    ensures { OneArcTestIsOneArc }
{}

/// What an activation reaches from a valid configuration is valid, has the same ids, area,
/// walls and greatest values, and differs in cells of the zone alone.
pub fn reached_keeps_rest()
    ensures { ReachedKeepsRest }
{}

/// The difference that an activation makes lists at most one node, which stands first,
/// and the bodies in rising id; each cell that it lists differs, and is one of the zone.
/// On each valid configuration that shows the same, the same acts succeed,
/// and make the same difference.
pub fn reached_differs_exactly()
    ensures exact { ReachedDiffIsExact }
    ensures everywhere { ReachedLeadsAlso }
{}

/// On each two valid configurations that show the same, ids without an amoebot allowed,
/// each operation answers alike, at first and behind any writes that succeed.
pub fn shown_meets_the_same()
    ensures { ShownMeetsTheSame }
{}

/// Occupied nodes that are connected stay connected under each operation that changes something
/// and succeeds, Contract with the guard on, and so under a whole activation with the guard on.
pub fn reached_stays_connected()
    ensures operations { OperationsKeepConnected }
    ensures reached { ReachedStaysConnected }
{}

/// Without the guard some Contract splits a connected shape.
pub fn unguarded_contract_splits()
    ensures { UnguardedSplits }
{}

/// Peer answers of the occupant behind the port, and the direction that it answers
/// is that amoebot's only one that leads back.
pub fn peer_looks_back()
    ensures { PeerLooksBack }
{}

/// A working copy stands for each valid configuration that shows what was found:
/// what is reached on the copy is reached there by the same acts,
/// its changes are the difference there, and the operations answer alike
/// as long as no movement has succeeded.
/// Writes and a movement that succeed lead from a working copy to one.
pub fn copies_stand_for_worlds()
    ensures work { CopiesWork }
    ensures stand { CopyStandsForWorlds }
{}

/// A decider whose changes are the differences that acts make keeps the laws of deciders;
/// where the acts have the guard on, its steps leave connected occupied nodes connected.
pub fn acts_decide()
    ensures laws { ActsKeepDeciderLaws }
    ensures connected { GuardedDecidersStayConnected }
{}

/// Only an expansion to a wall is blocked.
pub fn only_walls_block()
    ensures { OnlyWallsBlock }
{}
