//! What holds of the grammar of programs. The functions do nothing: their clauses are the laws.

ghost use Rattle.text_tokens.specs.Lawful.{Exact, IsDecided};
ghost use Rattle.action_tree.specs.{Programs.{IsProgram}, ProgramReaders.{a_program}};
ghost use Rattle.action_tree.specs.GrammarLaws.{WordsAreReserved, NamesAreNotReserved, ExpressionsAreDecided};
ghost use Rattle.action_tree.specs.GrammarLaws.{StatementsAreDecided, TextsGiveWritable, BytesGiveWritable};
ghost use Rattle.action_tree.specs.GrammarLaws.{LinesFollowText};

/// Of any tokens the grammar says one thing: they are read as one program, or have one first fault.
/// So does the grammar of expressions, and that of statements.
pub fn program_is_decided()
    ensures program { IsDecided IsProgram }
    ensures expressions { ExpressionsAreDecided }
    ensures statements { StatementsAreDecided }
{}

/// The reader answers what the grammar says.
pub fn program_is_exact()
    ensures { Exact IsProgram a_program }
{}

/// The table of roles has the reserved words, and all others are names.
pub fn words_are_reserved()
    ensures table { WordsAreReserved }
    ensures names { NamesAreNotReserved }
{}

/// A text within its limits gives a tree that a program can be made of.
pub fn texts_give_writable_trees()
    ensures tokens { TextsGiveWritable }
    ensures bytes { BytesGiveWritable }
{}

/// The lines of a program that a text gives never fall, in the order of its names and numbers.
pub fn lines_follow_text()
    ensures { LinesFollowText }
{}
