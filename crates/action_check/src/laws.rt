//! What holds of the definitions. The functions do nothing: their clauses are the laws.

ghost use Rattle.action_check.specs.Laws.{FaultlessIsKept, KeptIsFaultless, RowsAreDerived, SamplesKeepRules};
ghost use Rattle.action_check.specs.Laws.{FaultsIgnoreLines, RulesIgnoreLines, FaultsFollowText};
ghost use Rattle.action_check.specs.Laws.{FaultsOfTextNeverFall};

/// The list of faults is empty exactly where each part of the program
/// is what an evaluation relies on.
#[tactic(auto, using(crate::proofs::Whole::program_kept, crate::proofs::Whole::program_fine))]
pub fn faultless_is_kept()
    ensures kept { FaultlessIsKept }
    ensures faultless { KeptIsFaultless }
{}

/// The faults of small programs, and that the shipped programs have none.
pub fn rows_are_derived()
    ensures rows { RowsAreDerived }
    ensures shipped { SamplesKeepRules }
{}

/// Programs that are equal without their lines have the same faults, apart from lines;
/// so both keep the rules, or neither does.
pub fn faults_ignore_lines()
    ensures faults { FaultsIgnoreLines }
    ensures rules { RulesIgnoreLines }
{}

/// The faults stand in the order of lines: where the lines of a program never fall,
/// those of its faults never do.
pub fn faults_follow_text()
    ensures program { FaultsFollowText }
    ensures text { FaultsOfTextNeverFall }
{}
