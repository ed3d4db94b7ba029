//! The command `rewind`: the shape at a place of a journal, seen from the final shape.

ghost use Rattle.std.specs.{Prelude.{◌≡◌, ◌<◌, ◌≤◌, IfOk, length, codes}, List.{All}};
ghost use Rattle.serial_model.specs.Replays.{AreCountable};
ghost use Rattle.shape_files.specs.{Fitting.{Fits}, Views.{contents}};
ghost use Rattle.document_answers.specs.Rewind.{RewindOutcome, no_such_place, with_old_values};
ghost use Rattle.document_answers.specs.Answers.{IsAnswerOf, with_text};
ghost use Rattle.shape_text.specs.Texts.{shape_text};

use crate::answer::{Answer, differ, done, refuse};
use crate::recorded::recorded_in;
use crate::status::Status;
use action_eval::Runner;
use amoebot_state::{NoMemory, World};
use rewind_log::unwind;
use shape_files::{Form, Parts};
use shape_text::print_shape;
use std::alloc::Global;
use text_tokens::{Refusal, RefusalKind};

/// The shape at the place, to which the entries behind it are gone back over.
/// Of the first shape the area, the walls and the number of amoebots count alone.
pub fn answer_rewind(alloc: Global, place: u32, parts: Parts) -> Result<Answer, NoMemory>
    requires fits { Fits Form.Replay (contents parts) }
    requires least { with_old_values ≤ (contents parts).version }
    ensures { IfOk result (IsAnswerOf (RewindOutcome (contents parts) place)) }
{
    let (runner, start, last, journal) = recorded_in(parts);
    let full = journal.full().unwrap();
    let entries = full.entries();
    if (place as usize) > entries.len() {
        return refuse(alloc, bad_place());
    }
    match unwind(&runner, &start, last, entries, place) {
        Ok(shape) => show_shape(alloc, &runner, &shape),
        Err(differs) => differ(alloc, differs.place),
    }
}

/// The journal has no such place.
fn bad_place() -> Refusal
    ensures { result ≡ no_such_place }
{
    Refusal {
        line: 0,
        kind: RefusalKind::BadPlace,
    }
}

/// The answer that is the section of a shape.
fn show_shape(alloc: Global, runner: &Runner, shape: &World) -> Result<Answer, NoMemory>
    ensures { IfOk result (λ a.
        a ≡ with_text Status.Done (shape_text (codes "shape") (length runner.now.vars) shape.now)) }
{
    let checked = runner.checked();
    checked.program();
    let text = print_shape(alloc, "shape", shape, checked.vars())?;
    Ok(done(text))
}
