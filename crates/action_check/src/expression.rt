//! The rules on guards, sums and ports.

ghost use Rattle.std.specs.Prelude.{◌≡◌, ◌++◌, suc};
ghost use Rattle.action_tree.specs.Writable.{guard_names, guards_names, sum_names, term_names, port_names};
ghost use Rattle.action_tree.specs.Scopes.{HasRoom, scope_with};
ghost use Rattle.action_tree.specs.Views as view;
ghost use Rattle.action_check.specs.Told.{first_of, known_scope};
ghost use Rattle.action_check.specs.Faults as spec;

use crate::scope::{Scope, within};
use action_tree::{DirTerm, Guard, PortExpr, Sum, Term, Word};
use text_tokens::Refusal;

/// The greatest local direction, and the greatest number of a turn.
const MOST_DIRECTION: u32 = 5;

/// The greatest number in a sum.
const MOST_LITERAL: u32 = 65535;

/// A guard: its first fault in the order of the text, of a name or of a number, if it has one.
#[tactic(auto, using(crate::proofs::Firsts::first_behind, crate::proofs::Firsts::first_before))]
#[cycle(expressions)]
pub fn check_guard(guard: &Guard, scope: &Scope<'_>) -> Result<(), Refusal>
    requires { HasRoom (known_scope scope.now) (guard_names (view.guard_of guard.now)) }
    ensures { result ≡ first_of (spec.guard_faults (known_scope scope.now) (view.guard_of guard.now)) }
{
    match guard {
        Guard::True | Guard::False | Guard::Contracted | Guard::Expanded => Ok(()),
        Guard::Not(guard) => check_guard(guard, scope),
        Guard::And(guards) | Guard::Or(guards) => check_guards(guards, scope),
        Guard::Any(name, _, guard) | Guard::All(name, _, guard) => {
            check_inside(name, guard, scope)
        }
        Guard::Linked(port)
        | Guard::Free(port)
        | Guard::AtHead(port)
        | Guard::PeerExpanded(port)
        | Guard::PeerHead(port) => check_port(port, scope),
        Guard::Compare(left, _, right) => {
            check_sum(left, scope)?;
            check_sum(right, scope)
        }
    }
}

/// Guards, of which none knows of another.
#[tactic(auto, using(crate::proofs::Firsts::first_behind, crate::proofs::Firsts::first_before))]
#[cycle(expressions)]
fn check_guards(guards: &[Guard], scope: &Scope<'_>) -> Result<(), Refusal>
    requires { HasRoom (known_scope scope.now) (guards_names (view.guards_of guards.now)) }
    ensures { result ≡ first_of (spec.guards_faults (known_scope scope.now) (view.guards_of guards.now)) }
{
    for guard in guards {
        check_guard(guard, scope)?;
    }
    Ok(())
}

/// A guard in the parenthesis of a name.
#[tactic(auto, using(crate::proofs::Firsts::first_behind, crate::proofs::Firsts::first_before))]
#[cycle(expressions)]
pub fn check_inside(name: &Word, guard: &Guard, scope: &Scope<'_>) -> Result<(), Refusal>
    requires { HasRoom (known_scope scope.now) (suc (guard_names (view.guard_of guard.now))) }
    ensures { result ≡ first_of (
        spec.binding_faults (known_scope scope.now) (view.name_of name.now)
        ++ spec.guard_faults (scope_with (known_scope scope.now) (view.name_of name.now))
        (view.guard_of guard.now)) }
{
    scope.new_name(name)?;
    check_guard(guard, &scope.bind(name))
}

/// A sum, term by term. A number in it is at most 65,535; its first fault is told.
#[tactic(auto, using(crate::proofs::Firsts::first_behind, crate::proofs::Firsts::first_before))]
#[cycle(expressions)]
pub fn check_sum(sum: &Sum, scope: &Scope<'_>) -> Result<(), Refusal>
    requires { HasRoom (known_scope scope.now) (sum_names (view.sum_of sum.now)) }
    ensures { result ≡ first_of (spec.sum_faults (known_scope scope.now) (view.sum_of sum.now)) }
{
    for part in &sum.parts {
        check_term(&part.term, scope)?;
    }
    Ok(())
}

#[tactic(auto, using(crate::proofs::Firsts::first_behind, crate::proofs::Firsts::first_before))]
#[cycle(expressions)]
fn check_term(term: &Term, scope: &Scope<'_>) -> Result<(), Refusal>
    requires { HasRoom (known_scope scope.now) (term_names (view.term_of term.now)) }
    ensures { result ≡ first_of (spec.term_faults (known_scope scope.now) (view.term_of term.now)) }
{
    match term {
        Term::Number(number) => within(MOST_LITERAL, number),
        Term::Own(name) => scope.variable(name),
        Term::Of(port, name) => {
            check_port(port, scope)?;
            scope.variable(name)
        }
        Term::Count(name, _, guard) => check_inside(name, guard, scope),
        Term::Dir(port) | Term::PeerDir(port) => check_port(port, scope),
        Term::Inner => Ok(()),
        Term::Mod6(sum) => check_sum(sum, scope),
    }
}

/// A port. A direction and the number of a turn are at most 5; its first fault is told.
#[tactic(auto, using(crate::proofs::Firsts::first_behind, crate::proofs::Firsts::first_before))]
#[cycle(expressions)]
pub fn check_port(port: &PortExpr, scope: &Scope<'_>) -> Result<(), Refusal>
    requires { HasRoom (known_scope scope.now) (port_names (view.port_of port.now)) }
    ensures { result ≡ first_of (spec.port_faults (known_scope scope.now) (view.port_of port.now)) }
{
    match port {
        PortExpr::Name(name) => scope.bound_name(name),
        PortExpr::At(_, direction) => check_direction(direction, scope),
        PortExpr::Turn(port, number) => {
            check_port(port, scope)?;
            within(MOST_DIRECTION, number)
        }
        PortExpr::First(name, _, guard) => check_inside(name, guard, scope),
    }
}

fn check_direction(direction: &DirTerm, scope: &Scope<'_>) -> Result<(), Refusal>
    ensures { result ≡ first_of (
        spec.dirterm_faults (known_scope scope.now) (view.dirterm_of direction.now)) }
{
    match direction {
        DirTerm::Number(number) => within(MOST_DIRECTION, number),
        DirTerm::Own(name) => scope.variable(name),
    }
}
