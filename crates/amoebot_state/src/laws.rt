ghost use Rattle.amoebot_state.specs.Laws.{GlobalAndLocalAreInverse, ContractedHasSixPorts};
ghost use Rattle.amoebot_state.specs.Laws.{ExpandedHasTenPorts, SixPortsLeadToSixNodes};
ghost use Rattle.amoebot_state.specs.Laws.{TenPortsLeadToEightNodes, ZoneIsDetermined, ShownListsZone};
ghost use Rattle.amoebot_state.specs.Laws.{ShownHoldsValues, KnownIsFront, NextIsInZone, FrontGrows};
ghost use Rattle.amoebot_state.specs.Laws.{NextIsNew, KnownGrowsAtItsEnd, WholeZoneIsShown, FrontStands};
ghost use Rattle.amoebot_state.specs.Laws.{ZoneListsEachCellOnce, ZoneHasAtMostTenNodes};
ghost use Rattle.amoebot_state.specs.Laws.{ZoneHasAtMostNineBodies, NodeBehindPortIsInZone};
ghost use Rattle.amoebot_state.specs.Laws.{OccupantBehindPortIsInZone, ShownAloneShowsTheSame};
ghost use Rattle.amoebot_state.specs.Laws.{PatchedIsUnique, PatchListsWhatDiffers, StepHasOneResult};
ghost use Rattle.amoebot_state.specs.Laws.{RunHasOneLast, SameValueIsEquality, DiffLeads, OrderedPatchIsDiff};
ghost use Rattle.amoebot_state.specs.Laws.{OldValuesAreOne, ValidIsFaultless, FaultlessIsValid};
ghost use Rattle.amoebot_state.specs.Laws.{FirstFaultIsUnique, FaultlessHasNoFault, ShownAloneIsValid};
ghost use Rattle.amoebot_state.specs.Laws.{ShownAloneHoldsTheSame, OccupiedIsOccupant, PortLeadsBeside};
ghost use Rattle.amoebot_state.specs.Laws.{ShownAloneHasTheZone, NoneIsOutsideTheZone, BesideHoldsTheSame};
ghost use Rattle.amoebot_state.specs.Laws.{FirstRefusalIsUnique, WalledFrameIsValid, NodesAreTheirNumbers};
ghost use Rattle.amoebot_state.specs.Laws.{LawfulHasNoRefusal, ShownHasTheWalls, BesideHasTheSameWalls};
ghost use Rattle.amoebot_state.specs.{Laws.{SerialTurnIsUnique}, Reversals.{ReversedLeadsBack}};
ghost use Rattle.amoebot_state.specs.Examples.{SmallFaults, SmallRefusals};

/// Local and global directions are both 0 to 5, and the one is the inverse of the other,
/// with either chirality.
pub fn global_and_local_are_inverse()
    ensures { GlobalAndLocalAreInverse }
{}

/// A contracted amoebot has six ports.
pub fn contracted_has_six_ports()
    ensures { ContractedHasSixPorts }
{}

/// An expanded amoebot has ten ports.
pub fn expanded_has_ten_ports()
    ensures { ExpandedHasTenPorts }
{}

/// The six ports of a contracted amoebot lead to six nodes.
pub fn six_ports_lead_to_six_nodes()
    ensures { SixPortsLeadToSixNodes }
{}

/// The ten ports of an expanded amoebot lead to eight nodes.
pub fn ten_ports_lead_to_eight_nodes()
    ensures { TenPortsLeadToEightNodes }
{}

/// The node behind a port is beside the amoebot.
pub fn port_leads_beside()
    ensures { PortLeadsBeside }
{}

/// The own amoebot and the occupants of the zone's nodes determine the zone.
pub fn zone_is_determined()
    ensures { ZoneIsDetermined }
{}

/// What an amoebot is shown lists the cells of its zone, in zone order.
pub fn shown_lists_zone()
    ensures { ShownListsZone }
{}

/// Each cell that it is shown is shown with what it holds.
pub fn shown_holds_values()
    ensures { ShownHoldsValues }
{}

/// What is known of a zone, when a front of it was read, is a front of it.
pub fn known_is_front()
    ensures { KnownIsFront }
{}

/// The next cell is then the next one of the zone; there is none where there is none in the zone.
pub fn next_is_in_zone()
    ensures { NextIsInZone }
{}

/// The next cell has a value, and with it the cells that were read are a front again.
pub fn front_grows()
    ensures { FrontGrows }
{}

/// The next cell is none of those that were read.
pub fn next_is_new()
    ensures { NextIsNew }
{}

/// What is known of a zone grows at its end alone.
pub fn known_grows_at_its_end()
    ensures { KnownGrowsAtItsEnd }
{}

/// There is no next cell exactly where what was read is all that the amoebot is shown.
pub fn whole_zone_is_shown()
    ensures { WholeZoneIsShown }
{}

/// What was read of one configuration is a front of the zone in each other one
/// in which these cells hold the same.
pub fn front_stands()
    ensures { FrontStands }
{}

/// No cell stands twice in a zone.
pub fn zone_lists_each_cell_once()
    ensures { ZoneListsEachCellOnce }
{}

/// A zone of a valid configuration has at most ten nodes.
pub fn zone_has_at_most_ten_nodes()
    ensures { ZoneHasAtMostTenNodes }
{}

/// A zone of a valid configuration has at most nine bodies.
pub fn zone_has_at_most_nine_bodies()
    ensures { ZoneHasAtMostNineBodies }
{}

/// The node behind a port is in the zone, if it lies in the area.
pub fn node_behind_port_is_in_zone()
    ensures { NodeBehindPortIsInZone }
{}

/// The body of the occupant of the node behind a port is in the zone.
pub fn occupant_behind_port_is_in_zone()
    ensures { OccupantBehindPortIsInZone }
{}

/// The configuration that has what is shown and no other amoebot shows just that.
pub fn shown_alone_shows_the_same()
    ensures { ShownAloneShowsTheSame }
{}

/// At most one configuration is the one that a patch leads to.
pub fn patched_is_unique()
    ensures { PatchedIsUnique }
{}

/// A patch lists each cell whose value differs.
pub fn patch_lists_what_differs()
    ensures { PatchListsWhatDiffers }
{}

/// A step has at most one result.
pub fn step_has_one_result()
    ensures { StepHasOneResult }
{}

/// A run has at most one last configuration.
pub fn run_has_one_last()
    ensures { RunHasOneLast }
{}

/// The test of what cells hold answers whether it is equal.
pub fn same_value_is_equality()
    ensures { SameValueIsEquality }
{}

/// The difference of two valid configurations with the same area, walls,
/// greatest values and ids leads from the old one to the new one; each cell that it lists differs,
/// and its old values are those of the old one.
pub fn diff_leads()
    ensures { DiffLeads }
{}

/// An ordered patch that leads from one valid configuration to another,
/// each of whose cells differs, and whose old values are those of the first one,
/// is their difference.
pub fn ordered_patch_is_diff()
    ensures { OrderedPatchIsDiff }
{}

/// Patches with the same cells and new values, and with the old values of one configuration,
/// are one.
pub fn old_values_are_one()
    ensures { OldValuesAreOne }
{}

/// No amoebot of a valid configuration is refused.
pub fn valid_is_faultless()
    ensures { ValidIsFaultless }
{}

/// Amoebots of which none is refused make a valid configuration.
pub fn faultless_is_valid()
    ensures { FaultlessIsValid }
{}

/// At most one fault is the first one of a list of amoebots.
pub fn first_fault_is_unique()
    ensures { FirstFaultIsUnique }
{}

/// Amoebots of which none is refused have no first fault.
pub fn faultless_has_no_fault()
    ensures { FaultlessHasNoFault }
{}

/// The first faults of two lists of three amoebots.
pub fn small_faults()
    ensures { SmallFaults }
{}

/// At most one refusal is the first one of a list of walls and a list of amoebots.
pub fn first_refusal_is_unique()
    ensures { FirstRefusalIsUnique }
{}

/// Walls that may stand there, and amoebots without a fault beside them, have no first refusal.
pub fn lawful_has_no_refusal()
    ensures { LawfulHasNoRefusal }
{}

/// Lists of walls and of amoebots with their first refusal.
pub fn small_refusals()
    ensures { SmallRefusals }
{}

/// A frame with walls, of an area and of eight maxima, is valid.
pub fn walled_frame_is_valid()
    ensures { WalledFrameIsValid }
{}

/// A node of the area is one of these nodes exactly where its number is one of their numbers.
pub fn nodes_are_their_numbers()
    ensures { NodesAreTheirNumbers }
{}

/// The configuration that has what is shown and no other amoebot is valid.
pub fn shown_alone_is_valid()
    ensures { ShownAloneIsValid }
{}

/// Each cell of a zone holds in that configuration what it holds in the one that shows it.
pub fn shown_alone_holds_the_same()
    ensures { ShownAloneHoldsTheSame }
{}

/// An amoebot is in that configuration exactly where it is in the one that shows
/// it and its body is in the zone.
pub fn shown_alone_has_the_zone()
    ensures { ShownAloneHasTheZone }
{}

/// It has none with an id exactly where the body of that id is not in the zone.
pub fn none_is_outside_the_zone()
    ensures { NoneIsOutsideTheZone }
{}

/// A node that is the amoebot's own or adjacent to one has in it the same occupant, or none,
/// in the area or not.
pub fn beside_holds_the_same()
    ensures { BesideHoldsTheSame }
{}

/// Its walls are those of the zone.
pub fn shown_has_the_walls()
    ensures { ShownHasTheWalls }
{}

/// A node that is the amoebot's own or adjacent to one is a wall in both or in neither.
pub fn beside_has_the_same_walls()
    ensures { BesideHasTheSameWalls }
{}

/// A node of a valid configuration is occupied exactly
/// where it is the head or the tail of an amoebot.
pub fn occupied_is_occupant()
    ensures { OccupiedIsOccupant }
{}

/// A turn has at most one answer, and leaves at most one configuration.
pub fn serial_turn_is_unique()
    ensures { SerialTurnIsUnique }
{}

/// Where the values before are those of a valid configuration,
/// the patch the other way round leads back to it.
pub fn reversed_leads_back()
    ensures { ReversedLeadsBack }
{}
