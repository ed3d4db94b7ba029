//! Programs that keep the rules on names and ranges.

ghost use Rattle.std.specs.Prelude.{◌≡◌, length, IfOk, IfErr};
ghost use Rattle.action_check.specs.{Faults.{faults, AreRulesKept}, Told.{TellsFirst}};

use crate::declaration::{check_actions, check_vars};
use action_tree::{NameText, Program};
use indexmap::IndexSet;
use std::alloc::Global;
use std::marker::Model;
use text_tokens::ReadRefusal;

/// A program whose names are known and of their kinds, and whose numbers are in their ranges.
#[derive(Drop)]
pub struct Checked {
    program: Program,
    vars: IndexSet<NameText>,
}

impl Model for Checked {
    ghost use Rattle.std.specs.Prelude.{◌≡◌, true};
    ghost use Rattle.action_tree.specs.Stored.{program_code};
    ghost use Rattle.action_tree.specs.Trees.{Program as Tree};

    ghost Value = { Tree };

    ghost coded = { program_code };

    ghost use Rattle.action_tree.specs.{Writable.{is_writable}, Scopes.{names_of_vars}};
    ghost use Rattle.action_check.specs.{Faults.{AreRulesKept}, Told.{texts}};

    ghost view = { λ c. c.program };

    ghost invariant = { λ c. (is_writable c.program ≡ true) × AreRulesKept c.program
        × (texts c.vars.keys ≡ names_of_vars c.program.vars) };
}

/// The program, where it keeps the rules; else its first fault in the order of its text.
pub fn check(alloc: Global, program: Program) -> Result<Checked, ReadRefusal>
    ensures same { IfOk result (λ checked. checked ≡ program) }
    ensures kept { IfOk result (λ _. AreRulesKept program) }
    ensures refused { IfErr result (TellsFirst (faults program)) }
{
    let vars = check_vars(alloc, program.vars())?;
    check_actions(alloc, program.actions(), &vars)?;
    Ok(Checked { program, vars })
}

impl Checked {
    ghost use Rattle.std.specs.Prelude.{true};
    ghost use Rattle.action_tree.specs.Writable.{is_writable};
    ghost use Rattle.action_check.specs.{Rules.{ProgramKept}, Maxes.{maxes_of}};

    /// The program.
    pub fn program(&self) -> &Program
        ensures program { result.now ≡ self.now }
        ensures faultless { AreRulesKept self.now }
        ensures writable { is_writable self.now ≡ true }
        ensures kept { ProgramKept self.now }
    {
        &self.program
    }

    /// Whether movements are guarded.
    pub fn guard(&self) -> bool
        ensures { result ≡ self.now.guard }
    {
        self.program.guard()
    }

    /// The greatest values of the variables, in the order of their declaration,
    /// and 0 for each that there is not.
    pub fn maxes(&self) -> [u8; 8]
        ensures { result ≡ maxes_of self.now }
    {
        let vars = self.program().vars();
        let mut maxes = [0; 8];
        for (i, var) in vars.iter().enumerate() {
            maxes[i] = var.max.value as u8;
        }
        maxes
    }

    /// How many variables there are.
    pub fn vars(&self) -> u8
        ensures { result ≡ length self.now.vars }
    {
        self.program.vars().len() as u8
    }

    /// How many actions there are.
    pub fn actions(&self) -> u8
        ensures { result ≡ length self.now.actions }
    {
        self.program.actions().len() as u8
    }

    /// The same program with the guard of movements on or off.
    pub fn with_guard(self, guard: bool) -> Checked
        ensures { result ≡ record self { guard = guard } }
    {
        Checked {
            program: self.program.with_guard(guard),
            vars: self.vars,
        }
    }
}
