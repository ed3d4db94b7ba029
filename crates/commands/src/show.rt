//! The command `show`: a shipped program is printed.

ghost use Rattle.std.specs.Prelude.{IfOk, Some};
ghost use Rattle.commands.specs.{declared.words.Command.TheVariants.{Show}, Owed.{IsOwed}, Reads.{nothing}};

use amoebot_state::NoMemory;
use document_answers::{Answer, done, print_check};
use shipped_programs::Shipped;
use std::alloc::Global;

/// The version of the documents that are shown.
const VERSION: u8 = 1;

/// What is answered to `show`, which reads nothing.
pub fn answer_show(alloc: Global, program: Shipped) -> Result<Answer, NoMemory>
    ensures { IfOk result (λ a. IsOwed (Some (Show program)) nothing a.status a.report a.text) }
{
    let shipped = program.program(alloc)?;
    let text = print_check(alloc, VERSION, shipped.program())?;
    Ok(done(text))
}
