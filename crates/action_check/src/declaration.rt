//! The rules on the declarations of a program.

ghost use Rattle.std.specs.{Prelude.{◌≡◌, [], ◌∷◌, ◌++◌, true, map, OnOk, IfOk, IfErr, Ok}, List.{list_all}};
ghost use Rattle.action_tree.specs.Scopes.{names_of_vars, scope_of_names};
ghost use Rattle.action_tree.specs.{Views.{name_of, var_of, action_of}, Writable.{is_action}};
ghost use Rattle.action_check.specs.Told.{first_of, texts, TellsFirst};
ghost use Rattle.action_check.specs.Faults as spec;

use crate::scope::{Scope, refused, within};
use crate::statement::check_action;
use action_tree::{Action, NameText, Var, Word};
use indexmap::IndexSet;
use std::alloc::Global;
use text_tokens::{ReadRefusal, RefusalKind};

/// The greatest maximum that a variable may have.
const MOST_VALUE: u32 = 255;

/// Declares a name behind these.
fn declare(names: &mut IndexSet<NameText>, name: &Word) -> Result<(), ReadRefusal>
    ensures fine { OnOk result (
        first_of (spec.declared_faults (texts names.old.keys) (name_of name.now)) ≡ Ok tt) }
    ensures names { OnOk result (texts names.new.keys ≡ texts names.old.keys ++ name.now.text.bytes ∷ []) }
    ensures wrong { IfErr result (
        TellsFirst (spec.declared_faults (texts names.old.keys) (name_of name.now))) }
{
    if !names.insert(name.text)? {
        refused(name, RefusalKind::TwiceNamed)?;
    }
    Ok(())
}

/// The variables, whose names are given back in the order of their declaration.
pub fn check_vars(alloc: Global, vars: &[Var]) -> Result<IndexSet<NameText>, ReadRefusal>
    ensures fine { OnOk result (first_of (spec.vars_faults [] (map var_of vars.now)) ≡ Ok tt) }
    ensures names { IfOk result (λ names. texts names.keys ≡ names_of_vars (map var_of vars.now)) }
    ensures wrong { IfErr result (TellsFirst (spec.vars_faults [] (map var_of vars.now))) }
{
    let mut names = IndexSet::new(alloc);
    declare_vars(&mut names, vars)?;
    Ok(names)
}

/// Declares the variables behind these names.
/// It owns no names that it would have to drop at a `?`, which leaves less to prove.
fn declare_vars(names: &mut IndexSet<NameText>, vars: &[Var]) -> Result<(), ReadRefusal>
    ensures fine { OnOk result (
        first_of (spec.vars_faults (texts names.old.keys) (map var_of vars.now)) ≡ Ok tt) }
    ensures names { OnOk result (
        texts names.new.keys ≡ texts names.old.keys ++ names_of_vars (map var_of vars.now)) }
    ensures wrong { IfErr result (
        TellsFirst (spec.vars_faults (texts names.old.keys) (map var_of vars.now))) }
{
    for var in vars {
        declare(names, &var.name)?;
        within(MOST_VALUE, &var.max)?;
    }
    Ok(())
}

/// The actions of a program with these variables.
pub fn check_actions(
    alloc: Global,
    actions: &[Action],
    vars: &IndexSet<NameText>,
) -> Result<(), ReadRefusal>
    requires { list_all is_action (map action_of actions.now) ≡ true }
    ensures fine { OnOk result (
        first_of (spec.actions_faults (scope_of_names (texts vars.now.keys)) [] (map action_of actions.now))
        ≡ Ok tt) }
    ensures wrong { IfErr result (TellsFirst (
        spec.actions_faults (scope_of_names (texts vars.now.keys)) [] (map action_of actions.now))) }
{
    let mut names = IndexSet::new(alloc);
    declare_actions(&mut names, actions, vars)
}

/// Declares the actions behind these names, and checks each.
fn declare_actions(
    names: &mut IndexSet<NameText>,
    actions: &[Action],
    vars: &IndexSet<NameText>,
) -> Result<(), ReadRefusal>
    requires { list_all is_action (map action_of actions.now) ≡ true }
    ensures fine { OnOk result (
        first_of (spec.actions_faults (scope_of_names (texts vars.now.keys)) (texts names.old.keys)
        (map action_of actions.now))
        ≡ Ok tt) }
    ensures wrong { IfErr result (TellsFirst (
        spec.actions_faults (scope_of_names (texts vars.now.keys)) (texts names.old.keys)
        (map action_of actions.now))) }
{
    for action in actions {
        declare(names, &action.name)?;
        check_action(action, Scope::new(vars))?;
    }
    Ok(())
}
