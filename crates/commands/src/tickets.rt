//! The command `tickets`: workers are to run the lists of a document,
//! and no commit waits for another.

ghost use Rattle.shape_files.specs.{Fitting.{Fits}, Views.{contents}};
ghost use Rattle.commands.specs.{declared.tasks.Task.{Task}, Tasks.{IsTaskTo}, Commands.{form_of}};

use crate::prepared::{Maker, Prepared};
use crate::run::prepare;
use crate::words::DocumentCommand;
use claim_core::one_list_is_serial;
use shape_files::Parts;

/// The run of a document's lists is prepared as for `run`, and its commits draw their places.
pub(crate) fn prepare_tickets(parts: Parts) -> Prepared
    requires { Fits (form_of DocumentCommand.Tickets) (contents parts) }
    ensures { IsTaskTo DocumentCommand.Tickets (contents parts) (Task.Run result) }
{
    one_list_is_serial();
    let prepared = prepare(parts);
    Prepared {
        runner: prepared.runner,
        world: prepared.world,
        lists: prepared.lists,
        telling: prepared.telling,
        maker: Maker::Tickets,
    }
}
