//! The command `check`: the program of a document is printed.

ghost use Rattle.std.specs.Prelude.{◌≡◌, IfOk, IsSome, Some};
ghost use Rattle.shape_files.specs.{Fitting.{Fits}, Views.{contents}};
ghost use Rattle.document_answers.specs.{Check.{check_text, CheckOutcome}, AnswerLaws.{CanonMeansTheSame}};
ghost use Rattle.document_answers.specs.Answers.{IsAnswerOf};

use crate::answer::{Answer, done};
use crate::lines::put_number;
use action_check::Checked;
use action_print::put_program;
use action_tree::Program;
use amoebot_state::NoMemory;
use shape_files::{Form, Parts};
use std::alloc::Global;
use text_tokens::{Lines, Text};

/// The program is printed in its canonical form, under the version of its document.
pub fn answer_check(alloc: Global, parts: Parts) -> Result<Answer, NoMemory>
    requires { Fits Form.Check (contents parts) }
    ensures { IfOk result (IsAnswerOf (CheckOutcome (contents parts))) }
{
    let version = parts.version;
    let checked = checked_of(parts);
    let text = print_check(alloc, version, checked.program())?;
    Ok(done(text))
}

/// The program.
fn checked_of(parts: Parts) -> Checked
    requires { IsSome (contents parts).checked }
    ensures { (contents parts).checked ≡ Some result }
{
    parts.checked.unwrap()
}

/// The canonical text of a program, under the first line of a document of this version.
pub fn print_check(alloc: Global, version: u8, program: &Program) -> Result<Text, NoMemory>
    ensures { IfOk result (λ text. text ≡ check_text version program.now) }
{
    let mut lines = Lines::new(alloc);
    put_number(&mut lines, "amoebot", version)?;
    put_program(&mut lines, program)?;
    Ok(lines.text())
}

/// The canonical text of a program that keeps the rules is read as a program that keeps them too,
/// and has the same verdict.
pub fn canon_means_the_same()
    ensures { CanonMeansTheSame }
{}
