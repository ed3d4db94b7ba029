//! The place of each name of a program: of a variable among the variables,
//! of a bound name among the names in force.

ghost use Rattle.std.specs.Prelude.{◌≡◌, true, suc};
ghost use Rattle.action_tree.specs.{PlacedScope.{placed_scope}, Scopes.{HasRoom, scope_with}};
ghost use Rattle.action_tree.specs.Writable.{guard_names, guards_names, sum_names, term_names, port_names};
ghost use Rattle.action_tree.specs.Views as view;
ghost use Rattle.action_tree.specs.Places as spec;

use crate::expression::{DirTerm, Guard, Part, PortExpr, Sum, Term};
use crate::scope::Scope;
use crate::word::{Lit, Word};
use amoebot_state::End;
use std::mem;

/// A guard, each name with its place.
#[cycle(places)]
pub fn placed_guard(guard: Guard, scope: &Scope<'_>) -> Guard
    requires { HasRoom (placed_scope scope.now) (guard_names (view.guard_of guard)) }
    ensures same { view.guard_of result ≡ view.guard_of guard }
    ensures placed { spec.guard_placed result (placed_scope scope.now) ≡ true }
{
    match guard {
        Guard::True => Guard::True,
        Guard::False => Guard::False,
        Guard::Contracted => Guard::Contracted,
        Guard::Expanded => Guard::Expanded,
        Guard::Not(guard) => Guard::Not(placed_box(guard, scope)),
        Guard::And(mut guards) => {
            place_guards(&mut guards, scope);
            Guard::And(guards)
        }
        Guard::Or(mut guards) => {
            place_guards(&mut guards, scope);
            Guard::Or(guards)
        }
        Guard::Any(name, set, guard) => {
            let guard = placed_box(guard, &scope.bind(&name));
            Guard::Any(name, set, guard)
        }
        Guard::All(name, set, guard) => {
            let guard = placed_box(guard, &scope.bind(&name));
            Guard::All(name, set, guard)
        }
        Guard::Linked(port) => Guard::Linked(placed_port(port, scope)),
        Guard::Free(port) => Guard::Free(placed_port(port, scope)),
        Guard::AtHead(port) => Guard::AtHead(placed_port(port, scope)),
        Guard::PeerExpanded(port) => Guard::PeerExpanded(placed_port(port, scope)),
        Guard::PeerHead(port) => Guard::PeerHead(placed_port(port, scope)),
        Guard::Compare(left, cmp, right) => {
            let left = placed_sum(left, scope);
            let right = placed_sum(right, scope);
            Guard::Compare(left, cmp, right)
        }
    }
}

/// The guard of a box.
/// Here and below a call drops what stood for a value meanwhile.
/// That leaves less to prove than an assignment does.
#[cycle(places)]
fn placed_box(mut guard: Box<Guard>, scope: &Scope<'_>) -> Box<Guard>
    requires { HasRoom (placed_scope scope.now) (guard_names (view.guard_of guard.value)) }
    ensures same { view.guard_of result.value ≡ view.guard_of guard.value }
    ensures placed { spec.guard_placed result.value (placed_scope scope.now) ≡ true }
{
    let bare = mem::replace(&mut *guard, Guard::True);
    drop(mem::replace(&mut *guard, placed_guard(bare, scope)));
    guard
}

#[cycle(places)]
fn place_guards(guards: &mut [Guard], scope: &Scope<'_>)
    requires { HasRoom (placed_scope scope.now) (guards_names (view.guards_of guards.old)) }
    ensures same { view.guards_of guards.new ≡ view.guards_of guards.old }
    ensures placed { spec.guards_placed guards.new (placed_scope scope.now) ≡ true }
{
    for guard in guards.iter_mut() {
        let bare = mem::replace(guard, Guard::True);
        drop(mem::replace(guard, placed_guard(bare, scope)));
    }
}

/// A sum, each name with its place.
#[cycle(places)]
pub fn placed_sum(sum: Sum, scope: &Scope<'_>) -> Sum
    requires { HasRoom (placed_scope scope.now) (sum_names (view.sum_of sum)) }
    ensures same { view.sum_of result ≡ view.sum_of sum }
    ensures placed { spec.sum_placed result (placed_scope scope.now) ≡ true }
{
    let Sum { mut parts } = sum;
    place_parts(&mut parts, scope);
    Sum { parts }
}

#[cycle(places)]
fn place_parts(parts: &mut [Part], scope: &Scope<'_>)
    requires { HasRoom (placed_scope scope.now) (sum_names (view.terms_of parts.old)) }
    ensures same { view.terms_of parts.new ≡ view.terms_of parts.old }
    ensures placed { spec.parts_placed parts.new (placed_scope scope.now) ≡ true }
{
    for part in parts.iter_mut() {
        let bare = mem::replace(part, no_part());
        drop(mem::replace(part, placed_part(bare, scope)));
    }
}

#[cycle(places)]
fn placed_part(part: Part, scope: &Scope<'_>) -> Part
    requires { HasRoom (placed_scope scope.now) (term_names (view.part_of part).term) }
    ensures same { view.part_of result ≡ view.part_of part }
    ensures placed { spec.part_placed result (placed_scope scope.now) ≡ true }
{
    let Part { minus, term } = part;
    Part {
        minus,
        term: placed_term(term, scope),
    }
}

#[cycle(places)]
fn placed_term(term: Term, scope: &Scope<'_>) -> Term
    requires { HasRoom (placed_scope scope.now) (term_names (view.term_of term)) }
    ensures same { view.term_of result ≡ view.term_of term }
    ensures placed { spec.term_placed result (placed_scope scope.now) ≡ true }
{
    match term {
        Term::Number(number) => Term::Number(number),
        Term::Own(name) => Term::Own(placed_var(name, scope)),
        Term::Of(port, name) => Term::Of(placed_port(port, scope), placed_var(name, scope)),
        Term::Count(name, set, guard) => {
            let guard = placed_box(guard, &scope.bind(&name));
            Term::Count(name, set, guard)
        }
        Term::Dir(port) => Term::Dir(placed_port(port, scope)),
        Term::PeerDir(port) => Term::PeerDir(placed_port(port, scope)),
        Term::Inner => Term::Inner,
        Term::Mod6(sum) => Term::Mod6(placed_sum(sum, scope)),
    }
}

/// A port, each name with its place.
#[cycle(places)]
pub fn placed_port(port: PortExpr, scope: &Scope<'_>) -> PortExpr
    requires { HasRoom (placed_scope scope.now) (port_names (view.port_of port)) }
    ensures same { view.port_of result ≡ view.port_of port }
    ensures placed { spec.port_placed result (placed_scope scope.now) ≡ true }
{
    match port {
        PortExpr::Name(name) => PortExpr::Name(placed_bound(name, scope)),
        PortExpr::At(end, direction) => PortExpr::At(end, placed_direction(direction, scope)),
        PortExpr::Turn(port, number) => PortExpr::Turn(placed_turned(port, scope), number),
        PortExpr::First(name, set, guard) => {
            let guard = placed_box(guard, &scope.bind(&name));
            PortExpr::First(name, set, guard)
        }
    }
}

/// What stands for a part while it is given its places.
fn no_part() -> Part {
    Part {
        minus: false,
        term: Term::Inner,
    }
}

/// What stands for a port while it is given its places.
pub fn no_port() -> PortExpr {
    PortExpr::At(End::Head, DirTerm::Number(Lit { value: 0, line: 0 }))
}

#[cycle(places)]
fn placed_turned(mut port: Box<PortExpr>, scope: &Scope<'_>) -> Box<PortExpr>
    requires { HasRoom (placed_scope scope.now) (port_names (view.port_of port.value)) }
    ensures same { view.port_of result.value ≡ view.port_of port.value }
    ensures placed { spec.port_placed result.value (placed_scope scope.now) ≡ true }
{
    let bare = mem::replace(&mut *port, no_port());
    drop(mem::replace(&mut *port, placed_port(bare, scope)));
    port
}

fn placed_direction(direction: DirTerm, scope: &Scope<'_>) -> DirTerm
    ensures same { view.dirterm_of result ≡ view.dirterm_of direction }
    ensures placed { spec.dirterm_placed result (placed_scope scope.now) ≡ true }
{
    match direction {
        DirTerm::Number(number) => DirTerm::Number(number),
        DirTerm::Own(name) => DirTerm::Own(placed_var(name, scope)),
    }
}

/// The use of a variable, with its place.
pub fn placed_var(name: Word, scope: &Scope<'_>) -> Word
    ensures same { view.name_of result ≡ view.name_of name }
    ensures placed { spec.is_at_place (placed_scope scope.now).vars result ≡ true }
{
    Word {
        place: scope.var_place(&name),
        ..name
    }
}

/// The use of a name in force, with its place.
fn placed_bound(name: Word, scope: &Scope<'_>) -> Word
    ensures same { view.name_of result ≡ view.name_of name }
    ensures placed { spec.is_at_place (placed_scope scope.now).bound result ≡ true }
{
    Word {
        place: scope.bound_place(&name),
        ..name
    }
}
