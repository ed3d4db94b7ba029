ghost use Rattle.shape_checks.specs.Laws.{RingIsItsDistance, NextPlacesMeet, TwoRunsAreNoArc};
ghost use Rattle.shape_checks.specs.Laws.{FullRingsAreHexagons, RadiiFollow, HexagonsAreConnected};
ghost use Rattle.shape_checks.specs.Laws.{OneAloneIsHexagon, MeasuresAreDecided};

/// What holds of rings and their arcs.
pub fn ring_laws()
    ensures distance { RingIsItsDistance }
    ensures next { NextPlacesMeet }
    ensures runs { TwoRunsAreNoArc }
{}

/// What holds of hexagons.
pub fn hexagon_laws()
    ensures full { FullRingsAreHexagons }
    ensures radii { RadiiFollow }
    ensures connected { HexagonsAreConnected }
    ensures one { OneAloneIsHexagon }
{}

/// Each valid configuration is connected or not, and a hexagon or not.
pub fn measures_are_decided()
    ensures { MeasuresAreDecided }
{}
