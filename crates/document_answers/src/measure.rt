//! The command `measure`: the last shape of a document is measured.

ghost use Rattle.std.specs.{Prelude.{◌≡◌, IfOk, IsSome, Some}, Option.{option_or}};
ghost use Rattle.shape_files.specs.{Fitting.{Fits}, Views.{contents}};
ghost use Rattle.document_answers.specs.Measure.{IsMeasureText, MeasureOutcome};
ghost use Rattle.document_answers.specs.{AnswerLaws.{MeasureTextIsOne}, Answers.{IsAnswerOf}};

use crate::answer::{Answer, done};
use crate::lines::{put_answer, put_number};
use amoebot_state::{NoMemory, World};
use shape_checks::{is_connected, is_hexagon};
use shape_files::{Form, Parts};
use std::alloc::Global;
use text_tokens::{Lines, Text};

/// The last shape is measured.
pub fn answer_measure(alloc: Global, parts: Parts) -> Result<Answer, NoMemory>
    requires { Fits Form.Measure (contents parts) }
    ensures { IfOk result (IsAnswerOf (MeasureOutcome (contents parts))) }
{
    let (world, final_world) = shapes_of(parts);
    let last = last_shape(world, final_world);
    let text = print_measures(alloc, &last)?;
    Ok(done(text))
}

/// The shape at the start, and the one at the end.
fn shapes_of(parts: Parts) -> (Option<World>, Option<World>)
    ensures first { (contents parts).world ≡ result.0 }
    ensures last { (contents parts).final_world ≡ result.1 }
{
    let Parts {
        world,
        final_world,
        ..
    } = parts;
    (world, final_world)
}

/// The shape at the end, if there is one, and else the one at the start.
fn last_shape(world: Option<World>, final_world: Option<World>) -> World
    requires { IsSome world }
    ensures { option_or final_world world ≡ Some result }
{
    match final_world {
        Some(last) => last,
        None => world.unwrap(),
    }
}

/// How many amoebots the shape has, whether it is connected, and whether it is a hexagon:
/// a line for each.
pub fn print_measures(alloc: Global, world: &World) -> Result<Text, NoMemory>
    ensures { IfOk result (IsMeasureText world.now) }
{
    let connected = is_connected(alloc, world)?;
    let hexagon = is_hexagon(alloc, world)?;
    let mut lines = Lines::new(alloc);
    put_number(&mut lines, "bots", world.bots())?;
    put_answer(&mut lines, "connected", connected)?;
    put_answer(&mut lines, "hexagon", hexagon)?;
    Ok(lines.text())
}

/// A shape has one text of its measures.
pub fn measure_text_is_one()
    ensures { MeasureTextIsOne }
{}
