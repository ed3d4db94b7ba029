//! What holds of the canonical text. The functions do nothing: their clauses are the laws.

ghost use Rattle.action_print.specs.Pins.{CanonIsPinned};
ghost use Rattle.action_print.specs.ReadsBack.{CanonIgnoresLines, CanonIsRead, CanonReadsBack};

/// The canonical texts of a few programs, as bytes.
#[tactic(auto, using(crate::proofs::PinLemmas::canon_is_pinned))]
pub fn canon_is_pinned()
    ensures { CanonIsPinned }
{}

/// The canonical text of a program is a text of the grammar, which stands for the same program,
/// lines aside.
/// So it is read as that program.
pub fn canon_reads_back()
    ensures text { CanonReadsBack }
    ensures reader { CanonIsRead }
{}

/// Programs that are equal without their lines have one canonical text.
#[tactic(auto, using(crate::proofs::Lineless::canon_ignores_lines))]
pub fn canon_ignores_lines()
    ensures { CanonIgnoresLines }
{}
