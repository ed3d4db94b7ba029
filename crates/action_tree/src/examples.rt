//! What the grammar says of some texts. The functions do nothing: their clauses are the laws.

ghost use Rattle.action_tree.specs.Examples.{ExamplesAreRead, TreesAreRead, FaultsAreFound, LimitsAreKept};

/// Two shipped programs, a program of every form, and small texts are read as their trees.
pub fn samples_are_read()
    ensures samples { ExamplesAreRead }
    ensures trees { TreesAreRead }
{}

/// Texts near each production have their first fault.
pub fn faults_are_found()
    ensures { FaultsAreFound }
{}

/// Each limit is kept exactly.
pub fn limits_are_kept()
    ensures { LimitsAreKept }
{}
