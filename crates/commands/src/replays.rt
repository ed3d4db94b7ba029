//! What holds between `replay` and the other commands.
//! The functions do nothing: their clauses are the laws.

ghost use Rattle.commands.specs.ReplayLaws.{InterleaveTextsAreReplayed, RunTextsAreReplayed};
ghost use Rattle.commands.specs.ReplayLaws.{TicketTextsAreReplayed, WhatIsOwedIsReplayed};
ghost use Rattle.commands.specs.RenewLaws.{RenewEndsAsReplay, RenewedIsReplayed, RenewedStays};
ghost use Rattle.commands.specs.{RewindLaws.{RewindUndoesReplay}, RoundsLaws.{RoundsEndAsReplay}};

use crate::laws::good_is_few;
use action_meaning::{blocked_is_shown, changes_are_acts, verdict_ignores_lines};
use action_print::canon_ignores_lines;
use amoebot_state::zone_has_at_most_nine_bodies;
use journal_text::plain_keeps_limits;
use model_ops::acts_decide;
use round_meter::each_run_is_rounded;
use shape_files::{
    documents_are_sound, documents_fit, documents_read_back, least_versions_are_kept,
    runs_are_replayed,
};

/// A document of `run`, `tickets` or `interleave` whose last byte is a line feed,
/// followed by the text of a report of its run, is one of `replay`,
/// with the report's entries and its last world; and `replay` agrees.
pub fn run_texts_are_replayed()
    ensures run { RunTextsAreReplayed }
    ensures tickets { TicketTextsAreReplayed }
    ensures interleave { InterleaveTextsAreReplayed }
    ensures owed { WhatIsOwedIsReplayed }
{
    documents_fit();
    documents_are_sound();
    runs_are_replayed();
    good_is_few();
    changes_are_acts();
    blocked_is_shown();
    acts_decide();
    zone_has_at_most_nine_bodies();
    plain_keeps_limits();
}

/// What `renew` writes is a document of `replay` in version 3,
/// with what its document has and the entries that the journal tells.
/// `replay` agrees on it, and to renew it again gives the same text.
/// That is said of texts within the limit of `replay`.
/// `renew` is done exactly where `replay` is done, and ends as `replay` with each other status.
pub fn renewed_is_replayed()
    ensures replayed { RenewedIsReplayed }
    ensures stays { RenewedStays }
    ensures ends { RenewEndsAsReplay }
{
    least_versions_are_kept();
    documents_fit();
    documents_are_sound();
    documents_read_back();
    changes_are_acts();
    acts_decide();
    zone_has_at_most_nine_bodies();
    verdict_ignores_lines();
    canon_ignores_lines();
}

/// Where the journal of a document is a run from its shape to its final shape,
/// `rewind` owes the shape that the run has at the place.
pub fn rewind_undoes_replay()
    ensures { RewindUndoesReplay }
{
    documents_are_sound();
    least_versions_are_kept();
}

/// `rounds` is done exactly where `replay` is done, and ends as `replay` with each other status.
pub fn rounds_end_as_replay()
    ensures { RoundsEndAsReplay }
{
    documents_are_sound();
    each_run_is_rounded();
}
