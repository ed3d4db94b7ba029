ghost use Rattle.tri_lattice.specs.Laws.{OppositeLeadsBack, NextNeighboursMeet, NeighboursAreDistinct};
ghost use Rattle.tri_lattice.specs.Laws.{StepsLeave, AdjacencyIsSymmetric, NeighboursAreAtOne};
ghost use Rattle.tri_lattice.specs.Laws.{NodeTestIsEquality, AdjacentTestIsAdjacency, BoxIsItsBounds};
ghost use Rattle.tri_lattice.specs.Laws.{NumberCountsRows, NodesHaveNumbers, NumbersHaveNodes, SameKeeps};
ghost use Rattle.tri_lattice.specs.Laws.{PuttingKeeps, FewAreConnected};

/// What holds of steps, neighbours and distances.
pub fn lattice_laws()
    ensures back { OppositeLeadsBack }
    ensures meet { NextNeighboursMeet }
    ensures distinct { NeighboursAreDistinct }
    ensures leave { StepsLeave }
    ensures symmetric { AdjacencyIsSymmetric }
    ensures at_one { NeighboursAreAtOne }
    ensures node_test { NodeTestIsEquality }
    ensures adjacent_test { AdjacentTestIsAdjacency }
{}

/// What holds of the nodes of a box and their numbers.
pub fn area_laws()
    ensures bounds { BoxIsItsBounds }
    ensures rows { NumberCountsRows }
    ensures number { NodesHaveNumbers }
    ensures node { NumbersHaveNodes }
{}

/// What keeps a set of nodes connected.
pub fn connected_laws()
    ensures same { SameKeeps }
    ensures putting { PuttingKeeps }
    ensures few { FewAreConnected }
{}
