//! Single tokens, and what stands before an element of a row.

ghost use Rattle.std.specs.Prelude.{◌≡◌, ◌∷◌, ◌++◌, OnOk};
ghost use Rattle.text_tokens.specs.Lines.{spaced};
ghost use Rattle.action_tree.specs.Views.{dirterm_of, literal_of, name_of};
ghost use Rattle.action_print.specs.{Canon.{dirterm_word, literal_word}, Rows.{between, sign_words}};
ghost use Rattle.action_print.specs.Canon as canon;

use action_tree::{Cmp, DirTerm, Lit, PortSet, Word};
use std::alloc::AllocError;
use text_tokens::Lines;

/// A name, with a space before it.
pub fn put_name(lines: &mut Lines, name: &Word) -> Result<(), AllocError>
    ensures { OnOk result (lines.new ≡ lines.old ++ 32 ∷ (name_of name.now).text) }
{
    lines.word(name.text.as_str())
}

/// A number in decimal, without leading zeros, with a space before it.
pub fn put_number(lines: &mut Lines, number: &Lit) -> Result<(), AllocError>
    ensures { OnOk result (lines.new ≡ lines.old ++ 32 ∷ literal_word (literal_of number.now)) }
{
    lines.number(number.value)
}

/// A direction, a number or a variable's name, with a space before it.
pub fn put_dirterm(lines: &mut Lines, dir: &DirTerm) -> Result<(), AllocError>
    ensures { OnOk result (lines.new ≡ lines.old ++ 32 ∷ dirterm_word (dirterm_of dir.now)) }
{
    match dir {
        DirTerm::Number(number) => put_number(lines, number),
        DirTerm::Own(name) => put_name(lines, name),
    }
}

/// A token before each element of a row but the first, whose place is 0.
pub fn put_between(lines: &mut Lines, place: usize, word: &str) -> Result<(), AllocError>
    ensures { OnOk result (lines.new ≡ lines.old ++ spaced (between place word.now)) }
{
    if place == 0 {
        return Ok(());
    }
    lines.word(word)
}

/// The sign of the term at a place of a sum.
pub fn put_sign(lines: &mut Lines, place: usize, minus: bool) -> Result<(), AllocError>
    ensures { OnOk result (lines.new ≡ lines.old ++ spaced (sign_words place minus)) }
{
    if minus {
        lines.word("-")
    } else {
        put_between(lines, place, "+")
    }
}

/// The word for a set of ports.
pub fn set_word(set: PortSet) -> &'static str
    ensures { result.now ≡ canon.set_word set }
{
    match set {
        PortSet::Ports => "ports",
        PortSet::Free => "free",
    }
}

/// The sign of a comparison.
pub fn cmp_sign(cmp: Cmp) -> &'static str
    ensures { result.now ≡ canon.cmp_sign cmp }
{
    match cmp {
        Cmp::Eq => "=",
        Cmp::Ne => "!=",
        Cmp::Lt => "<",
        Cmp::Le => "<=",
        Cmp::Gt => ">",
        Cmp::Ge => ">=",
    }
}
