//! The command `run`: workers are to run the lists of a document.

ghost use Rattle.shape_files.specs.{Fitting.{Fits}, Views.{contents}};
ghost use Rattle.commands.specs.{declared.tasks.Task.{Task}, Tasks.{IsTaskTo}, Commands.{form_of}};
ghost use Rattle.commands.specs.ReportLaws.{RunReportIsOne};

use crate::prepared::{Maker, Prepared, Telling};
use crate::words::DocumentCommand;
use action_eval::Runner;
use claim_core::{one_list_is_serial, serial_run_is_determined};
use shape_files::Parts;

/// The run of a document's lists is prepared; it gets the text
/// of its report in the document's version.
pub(crate) fn prepare(parts: Parts) -> Prepared
    requires { Fits (form_of DocumentCommand.Run) (contents parts) }
    ensures { IsTaskTo DocumentCommand.Run (contents parts) (Task.Run result) }
{
    one_list_is_serial();
    let Parts {
        version,
        checked,
        world,
        lists,
        ..
    } = parts;
    let checked = checked.unwrap();
    let world = world.unwrap();
    let lists = lists.unwrap();
    world.keeps();
    let runner = Runner::new(checked);
    Prepared {
        runner,
        world,
        lists,
        telling: Telling::Report(version),
        maker: Maker::Workers,
    }
}

/// A run of at most one list has at most one report, and one text of it.
pub fn run_report_is_one()
    ensures { RunReportIsOne }
{
    serial_run_is_determined();
}
