//! Variables, actions and whole programs.

ghost use Rattle.std.specs.Prelude.{◌≡◌, true, map};
ghost use Rattle.action_tree.specs.{Views.{var_of, action_of, program_of}, Writable.{is_writable}};

use crate::expression::Guard;
use crate::placed_actions::place_actions;
use crate::statement::{Move, Stmt};
use crate::word::{Lit, Word};
use std::marker::Model;

/// A variable of each amoebot, and its greatest value.
#[derive(Clone, Copy)]
pub struct Var {
    pub name: Word,
    pub max: Lit,
}

/// An action: where its guard is true, its statements run, and then its movement.
/// Without `do` the body is empty.
#[derive(Drop)]
pub struct Action {
    pub name: Word,
    pub guard: Guard,
    pub body: Vec<Stmt>,
    pub moved: Move,
}

/// A program, which some text of the grammar within its limits stands for.
#[derive(Drop)]
pub struct Program {
    guard: bool,
    vars: Vec<Var>,
    actions: Vec<Action>,
}

impl Model for Program {
    ghost use Rattle.std.specs.Prelude.{◌≡◌, true};
    ghost use Rattle.action_tree.specs.Stored.{program_code};
    ghost use Rattle.action_tree.specs.Trees.{Program as Tree};

    ghost Value = { Tree };

    ghost coded = { program_code };

    ghost use Rattle.action_tree.specs.{Views.{program_of}, Writable.{is_writable}};

    ghost view = { λ p. program_of p.guard p.vars.items p.actions.items };

    ghost use Rattle.std.specs.Prelude.{[]};
    ghost use Rattle.action_tree.specs.{Places.{actions_placed}, Scopes.{at_start}};

    ghost invariant = { λ p. (is_writable (program_of p.guard p.vars.items p.actions.items) ≡ true)
        × (actions_placed p.actions.items (at_start (program_of p.guard p.vars.items p.actions.items))
        ≡ true) };
}

impl Program {
    ghost use Rattle.action_tree.specs.{Places.{actions_placed}, Scopes.{at_start}};

    /// The program with the guard of movements on or off, these variables and these actions.
    pub fn make(guard: bool, vars: Vec<Var>, mut actions: Vec<Action>) -> Program
        requires { is_writable (program_of guard vars.items actions.items) ≡ true }
        ensures { result ≡ program_of guard vars.items actions.items }
    {
        place_actions(&mut actions, &vars);
        Program {
            guard,
            vars,
            actions,
        }
    }

    /// The same program with the guard of movements on or off.
    pub fn with_guard(self, guard: bool) -> Program
        ensures { result ≡ record self { guard = guard } }
    {
        Program { guard, ..self }
    }

    /// Whether movements are guarded.
    pub fn guard(&self) -> bool
        ensures { result ≡ self.now.guard }
    {
        self.guard
    }

    /// The variables, in the order of the text.
    pub fn vars(&self) -> &[Var]
        ensures { map var_of result.now ≡ self.now.vars }
    {
        &self.vars
    }

    /// The actions, in the order of the text. Each name that is used in them has its place.
    pub fn actions(&self) -> &[Action]
        ensures actions { map action_of result.now ≡ self.now.actions }
        ensures placed { actions_placed result.now (at_start self.now) ≡ true }
        ensures writable { is_writable self.now ≡ true }
    {
        &self.actions
    }
}
