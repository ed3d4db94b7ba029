//! The words of a call as `clap` reads them: one command with subcommands.

ghost use Rattle.std.specs.Prelude.{◌≡◌, IfOk, false};
ghost use Rattle.clap.specs.Words.{app_of, shape_of};
ghost use Rattle.clap.specs.declared.builder.command.Command.TheViews.{out-Command};
ghost use Rattle.commands.specs.Syntax.{bare, words_syntax, with_argument};

use clap::{Arg, Command};
use std::alloc::{AllocError, Global};

/// The command with the subcommands that are the words of the commands.
pub(crate) fn words_syntax<'a>(alloc: Global) -> Result<Command<'a>, AllocError>
    ensures { IfOk result (λ c. app_of c ≡ words_syntax) }
{
    bare(alloc)
        .subcommand(Command::new(alloc, "run"))?
        .subcommand(Command::new(alloc, "interleave"))?
        .subcommand(Command::new(alloc, "replay"))?
        .subcommand(Command::new(alloc, "check"))?
        .subcommand(Command::new(alloc, "measure"))?
        .subcommand(Command::new(alloc, "renew"))?
        .subcommand(Command::new(alloc, "rounds"))?
        .subcommand(Command::new(alloc, "elect"))?
        .subcommand(Command::new(alloc, "tickets"))?
        .subcommand(with_argument(alloc, "show", "NAME")?)?
        .subcommand(with_argument(alloc, "sample", "NUMBER")?)?
        .subcommand(with_argument(alloc, "rewind", "NUMBER")?)
}

/// A command without help, whose words are all of the caller's and begin with a subcommand.
fn bare<'a>(alloc: Global) -> Command<'a>
    ensures { app_of result ≡ bare }
{
    Command::new(alloc, "amoebot")
        .no_binary_name(true)
        .disable_help_flag(true)
        .disable_help_subcommand(true)
        .disable_version_flag(true)
        .subcommand_required(true)
}

/// A subcommand with one argument, which has to be given.
fn with_argument<'a>(alloc: Global, name: &'a str, id: &'a str) -> Result<Command<'a>, AllocError>
    ensures shape { IfOk result (λ c. shape_of c ≡ with_argument name.now id.now) }
    ensures local { IfOk result (λ c. (out-Command c).has_globals ≡ false) }
{
    Command::new(alloc, name).arg(Arg::new(alloc, id).required(true))
}
