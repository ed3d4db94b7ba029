//! What the grammars of the sections say. The functions do nothing: their clauses are the laws.

ghost use Rattle.std.specs.Prelude.{ℕ, List};
ghost use Rattle.text_tokens.specs.Lawful.{Exact, IsDecided};
ghost use Rattle.shape_text.specs.{Shapes.{IsFinal, IsShape}, Readers.{a_final, a_shape}};
ghost use Rattle.shape_text.specs.{Judgements.{JudgedAsWorlds}, Rereading.{ShapesReadBack}};
ghost use Rattle.shape_text.specs.{ShapeRows.{ShapesAreRead}, TextRows.{ShapeTextsArePrinted}};
ghost use Rattle.shape_text.specs.WallRows.{WallsAreRead};

/// Of any tokens the grammar of a shape says one thing, and its reader answers that;
/// and so does that of a last shape.
pub fn shapes_are_decided()
    ensures exact { (version vars : ℕ) (maxes : List ℕ)
        → Exact (IsShape version vars maxes) (a_shape version vars maxes) }
    ensures decided { (version vars : ℕ) (maxes : List ℕ) → IsDecided (IsShape version vars maxes) }
    ensures exact_final { (version vars : ℕ) (maxes : List ℕ)
        → Exact (IsFinal version vars maxes) (a_final version vars maxes) }
    ensures decided_final { (version vars : ℕ) (maxes : List ℕ) → IsDecided (IsFinal version vars maxes) }
    ensures read { ShapesAreRead }
{}

/// Small texts with walls, with what they are read as.
pub fn walls_are_read()
    ensures { WallsAreRead }
{}

/// A world whose amoebots have 0 past the variables is read back from its text,
/// in a version whose texts may have its walls.
pub fn shapes_read_back()
    ensures { ShapesReadBack }
{}

/// Small configurations with their texts.
pub fn texts_are_printed()
    ensures { ShapeTextsArePrinted }
{}

/// What is wrong with a shape is what a world refuses.
pub fn shapes_are_judged_as_worlds()
    ensures { JudgedAsWorlds }
{}
