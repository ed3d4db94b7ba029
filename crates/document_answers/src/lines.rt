//! Lines of texts that several commands write.

ghost use Rattle.std.specs.Prelude.{◌≡◌, ◌∷◌, ◌++◌, [], OnOk};
ghost use Rattle.text_tokens.specs.Lines.{line_text};
ghost use Rattle.document_answers.specs.Measure.{yes_or_no};

use itoa::Integer;
use std::alloc::AllocError;
use text_tokens::Lines;

/// The line of a number, under its word.
pub fn put_number<I: Integer + Drop>(
    lines: &mut Lines,
    word: &str,
    number: I,
) -> Result<(), AllocError>
    ensures { OnOk result (lines.new ≡ lines.old ++ line_text (word.now ∷ I.text number ∷ [])) }
{
    lines.begin(word)?;
    lines.number(number)?;
    lines.end()
}

/// The line of an answer, under its word.
pub fn put_answer(lines: &mut Lines, word: &str, is_so: bool) -> Result<(), AllocError>
    ensures { OnOk result (lines.new ≡ lines.old ++ line_text (word.now ∷ yes_or_no is_so ∷ [])) }
{
    put_word(lines, word, yes_or_no(is_so))
}

/// The line of two words.
pub fn put_word(lines: &mut Lines, word: &str, other: &str) -> Result<(), AllocError>
    ensures { OnOk result (lines.new ≡ lines.old ++ line_text (word.now ∷ other.now ∷ [])) }
{
    lines.begin(word)?;
    lines.word(other)?;
    lines.end()
}

/// The word of an answer.
fn yes_or_no(is_so: bool) -> &'static str
    ensures { result.now ≡ yes_or_no is_so }
{
    if is_so { "yes" } else { "no" }
}
