ghost use Rattle.claim_core.specs.Laws.{TagTellsItsOwner, IsAlwaysSound, ReachedIsGood, StateHasOneReport};
ghost use Rattle.claim_core.specs.Laws.{EntryIsDecided, CommittedIsJournal, CommittedIsShown};
ghost use Rattle.claim_core.specs.Laws.{OneListIsNeverBusy, OneListIsSerial, EndedStays};
ghost use Rattle.claim_core.specs.Laws.{HoldsNothingHasNoTag, HeldByOne, RoundsEnd, RoundsLeaveAReport};
ghost use Rattle.claim_core.specs.TicketLaws.{TicketsAreSound, TicketsHoldNoJournal, TicketStepsAreEvents};
ghost use Rattle.claim_core.specs.TicketLaws.{TicketsAreClaims, TicketReachedIsReached, TicketReachedIsGood};
ghost use Rattle.claim_core.specs.TicketLaws.{TicketsWaitForNobody, TicketsLeaveAReport, JournalIsMerge};
ghost use Rattle.claim_core.specs.TicketLaws.{MergeIsOne, NextIsFirst, NoPlaceNoEntry, SmallMerge};
ghost use Rattle.claim_core.specs.SerialRuns.{SerialRunIsDetermined, SerialReportIsDetermined};

use amoebot_state::step_has_one_result;

/// What the turns of the only caller leave is determined: by the decider, the first world,
/// the list and the number of turns.
/// So two reports of such a run have one last world, one journal and the same marks.
pub fn serial_run_is_determined()
    ensures left { SerialRunIsDetermined }
    ensures report { SerialReportIsDetermined }
{
    step_has_one_result();
}

/// A tag tells its caller, its turn and its amoebot, and is not 0.
pub fn tag_tells_its_owner()
    ensures { TagTellsItsOwner }
{}

/// After any list of steps the state is sound.
pub fn is_always_sound()
    ensures { IsAlwaysSound }
{}

/// A state has at most one report.
pub fn state_has_one_report()
    ensures { StateHasOneReport }
{}

/// A report that some interleaving gives is a good one, with what its Busy say of the other turn.
pub fn reached_is_good()
    ensures { ReachedIsGood }
{}

/// Each entry's change was decided on what the run shows its amoebot at its place.
pub fn entry_is_decided()
    ensures { EntryIsDecided }
{}

/// What is kept as committed by a caller is its entries of the journal, each with its place.
pub fn committed_is_journal()
    ensures { CommittedIsJournal }
{}

/// It is kept with what the run shows the entry's amoebot there.
pub fn committed_is_shown()
    ensures { CommittedIsShown }
{}

/// In a good report of at most one list no turn is Busy.
pub fn one_list_is_never_busy()
    ensures { OneListIsNeverBusy }
{}

/// A good report of at most one list is what its turns leave one after another.
pub fn one_list_is_serial()
    ensures { OneListIsSerial }
{}

/// A step of a caller that has ended changes nothing.
pub fn ended_stays()
    ensures { EndedStays }
{}

/// No cell has a tag of a caller that holds nothing.
pub fn holds_nothing_has_no_tag()
    ensures { HoldsNothingHasNoTag }
{}

/// No cell is held by two callers.
pub fn held_by_one()
    ensures { HeldByOne }
{}

/// After any steps, 40 rounds for each turn of all callers together
/// are enough for all callers to end.
pub fn rounds_are_enough()
    ensures { RoundsEnd }
{}

/// After any steps, some number of rounds is the first with which all callers have ended,
/// and then there is a report.
pub fn rounds_leave_a_report()
    ensures { RoundsLeaveAReport }
{}

/// Where commits draw tickets, after any list of steps the state is sound.
pub fn tickets_are_sound()
    ensures { TicketsAreSound }
{}

/// Nobody ever holds the journal there.
pub fn tickets_hold_no_journal()
    ensures { TicketsHoldNoJournal }
{}

/// Each step is its event: a commit is the journal taken and the commit behind it,
/// and each other step is that of the claims' machine.
pub fn ticket_steps_are_events()
    ensures { TicketStepsAreEvents }
{}

/// After any list of steps the state is one to which steps of the claims' machine lead.
pub fn tickets_are_claims()
    ensures { TicketsAreClaims }
{}

/// So a report that commits with tickets give is one that some
/// interleaving of the claims' machine gives.
pub fn ticket_reached_is_reached()
    ensures { TicketReachedIsReached }
{}

/// And it is a good one.
pub fn ticket_reached_is_good()
    ensures { TicketReachedIsGood }
{}

/// A caller has ended after 40 steps of its own for each turn, whatever the others do:
/// it waits for nobody.
pub fn tickets_wait_for_nobody()
    ensures { TicketsWaitForNobody }
{}

/// There is a report for each run that may be made.
pub fn tickets_leave_a_report()
    ensures { TicketsLeaveAReport }
{}

/// After any list of steps the journal is the merge of the callers' own lists by place.
pub fn journal_is_merge()
    ensures { JournalIsMerge }
{}

/// Lists have at most one merge. Three small ones have one.
pub fn merge_is_one()
    ensures one { MergeIsOne }
    ensures example { SmallMerge }
{}

/// A merge is made entry by entry: the next one stands first in one list, found by its place,
/// and without it the rest is left.
/// Where no list begins with the place, none is left.
pub fn next_is_first()
    ensures first { NextIsFirst }
    ensures end { NoPlaceNoEntry }
{}
