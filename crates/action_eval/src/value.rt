//! The values of guards, sums and ports.
//!
//! Quantifiers and tests of ports stay out of line: a comparison then
//! makes no room for what they need.

ghost use Rattle.std.specs.Prelude.{◌≡◌, ◌<◌, ◌≤ℤ◌, pos, true, IfOk};
ghost use Rattle.action_tree.specs.Places.{dirterm_placed, guard_placed, guards_placed, port_placed};
ghost use Rattle.action_tree.specs.Places.{term_placed, sum_placed};
ghost use Rattle.action_tree.specs.Writable.{is_guard, are_guards, is_sum, is_term, is_port as is_port_expr};
ghost use Rattle.action_tree.specs.Trees as tree;
ghost use Rattle.action_tree.specs.Views as view;
ghost use Rattle.action_check.specs.Limits.{most_literal};
ghost use Rattle.action_check.specs.Rules.{GuardKept, GuardsKept, SumKept, TermKept, PortKept, DirTermKept};
ghost use Rattle.action_meaning.specs.Choices.{any_of_ports, all_of_ports, first_of_ports, count_of_ports};
ghost use Rattle.action_meaning.specs.Values as spec;
ghost use Rattle.action_eval.specs.Known.{known, scope_of, sight_of, asked_by};
ghost use Rattle.action_eval.specs.UnderNames.{MayAsk, guard_at};

use crate::names::Names;
use crate::number::{compare, signed};
use crate::port::{inner_value, is_one_of, is_own_port, pairs};
use crate::simple::{simple_comparison, simple_port};
use action_tree::{DirTerm, Guard, PortExpr, PortSet, Sum, Term, Word};
use amoebot_state::{End, Failure, Port};
use model_ops::Site;

/// What is asked of one port.
#[derive(Clone, Copy)]
enum Test {
    Linked,
    Free,
    AtHead,
    PeerExpanded,
    PeerHead,
}

/// The value of a guard.
#[tactic(auto, using(crate::proofs::Evaluated::value_steps))]
#[cycle(values)]
pub fn guard_value<'p>(
    guard: &'p Guard,
    site: &Site<'_>,
    names: &Names<'p>,
) -> Result<bool, Failure>
    requires kept { GuardKept (scope_of (known names.now)) (view.guard_of guard.now) }
    requires placed { guard_placed guard.now (scope_of (known names.now)) ≡ true }
    requires counted { is_guard (view.guard_of guard.now) ≡ true }
    ensures { result ≡ spec.guard_value (sight_of site.now) (known names.now) (view.guard_of guard.now) }
{
    match guard {
        Guard::True => Ok(true),
        Guard::False => Ok(false),
        Guard::Contracted => Ok(site.own().is_contracted()),
        Guard::Expanded => Ok(!site.own().is_contracted()),
        Guard::Not(guard) => {
            let value = quick_value(guard, site, names)?;
            Ok(!value)
        }
        Guard::And(guards) => each_value(guards, site, names),
        Guard::Or(guards) => some_value(guards, site, names),
        Guard::Any(name, set, guard) => any_value(name, *set, guard, site, names),
        Guard::All(name, set, guard) => all_value(name, *set, guard, site, names),
        Guard::Linked(port) => test_value(Test::Linked, port, site, names),
        Guard::Free(port) => test_value(Test::Free, port, site, names),
        Guard::AtHead(port) => test_value(Test::AtHead, port, site, names),
        Guard::PeerExpanded(port) => test_value(Test::PeerExpanded, port, site, names),
        Guard::PeerHead(port) => test_value(Test::PeerHead, port, site, names),
        Guard::Compare(left, cmp, right) => {
            let left = sum_value(left, site, names)?;
            let right = sum_value(right, site, names)?;
            Ok(compare(*cmp, left, right))
        }
    }
}

/// The value of a guard.
/// Those that stand most often are answered here, without the room that the others need:
/// comparisons of simple sums are looked up at once.
#[inline(always)]
#[cycle(values)]
pub fn quick_value<'p>(
    guard: &'p Guard,
    site: &Site<'_>,
    names: &Names<'p>,
) -> Result<bool, Failure>
    requires kept { GuardKept (scope_of (known names.now)) (view.guard_of guard.now) }
    requires placed { guard_placed guard.now (scope_of (known names.now)) ≡ true }
    requires counted { is_guard (view.guard_of guard.now) ≡ true }
    ensures { result ≡ spec.guard_value (sight_of site.now) (known names.now) (view.guard_of guard.now) }
{
    match guard {
        Guard::Contracted => Ok(site.own().is_contracted()),
        Guard::Expanded => Ok(!site.own().is_contracted()),
        Guard::And(guards) => each_value(guards, site, names),
        Guard::Or(guards) => some_value(guards, site, names),
        Guard::Compare(left, cmp, right) => match simple_comparison(
            left, *cmp, right, site, names,
        ) {
            Some(value) => Ok(value),
            None => guard_value(guard, site, names),
        },
        _ => guard_value(guard, site, names),
    }
}

/// What is asked of the port that an expression names.
#[inline(never)]
#[tactic(auto, using(crate::proofs::Evaluated::value_steps))]
#[cycle(values)]
fn test_value<'p>(
    test: Test,
    port: &'p PortExpr,
    site: &Site<'_>,
    names: &Names<'p>,
) -> Result<bool, Failure>
    requires kept { PortKept (scope_of (known names.now)) (view.port_of port.now) }
    requires placed { port_placed port.now (scope_of (known names.now)) ≡ true }
    requires counted { is_port_expr (view.port_of port.now) ≡ true }
    ensures { result ≡ spec.guard_value (sight_of site.now) (known names.now)
        (tree.tested (asked_by test) (view.port_of port.now)) }
{
    let port = quick_port(port, site, names)?;
    match test {
        Test::Linked => site.connected(port),
        Test::Free => site.is_free(port),
        Test::AtHead => {
            if is_own_port(port, site) {
                Ok(port.end == End::Head)
            } else {
                Err(Failure::NoPort)
            }
        }
        Test::PeerExpanded => {
            let seen = site.peer(port)?;
            Ok(seen.expanded)
        }
        Test::PeerHead => {
            let seen = site.peer(port)?;
            Ok(seen.at_head)
        }
    }
}

/// `and` stops at the first false element.
#[cycle(values)]
fn each_value<'p>(guards: &'p [Guard], site: &Site<'_>, names: &Names<'p>) -> Result<bool, Failure>
    requires kept { GuardsKept (scope_of (known names.now)) (view.guards_of guards.now) }
    requires placed { guards_placed guards.now (scope_of (known names.now)) ≡ true }
    requires counted { are_guards (view.guards_of guards.now) ≡ true }
    ensures { result ≡ spec.each_value (sight_of site.now) (known names.now) (view.guards_of guards.now) }
{
    for guard in guards {
        match quick_value(guard, site, names) {
            Ok(true) => {}
            Ok(false) => return Ok(false),
            Err(failure) => return Err(failure),
        }
    }
    Ok(true)
}

/// `or` stops at the first true element.
#[cycle(values)]
fn some_value<'p>(guards: &'p [Guard], site: &Site<'_>, names: &Names<'p>) -> Result<bool, Failure>
    requires kept { GuardsKept (scope_of (known names.now)) (view.guards_of guards.now) }
    requires placed { guards_placed guards.now (scope_of (known names.now)) ≡ true }
    requires counted { are_guards (view.guards_of guards.now) ≡ true }
    ensures { result ≡ spec.some_value (sight_of site.now) (known names.now) (view.guards_of guards.now) }
{
    for guard in guards {
        match quick_value(guard, site, names) {
            Ok(false) => {}
            Ok(true) => return Ok(true),
            Err(failure) => return Err(failure),
        }
    }
    Ok(false)
}

/// `any`: the first port of which the guard is not false decides.
#[inline(never)]
#[cycle(values)]
fn any_value<'p>(
    name: &'p Word,
    set: PortSet,
    guard: &'p Guard,
    site: &Site<'_>,
    names: &Names<'p>,
) -> Result<bool, Failure>
    requires { MayAsk (known names.now) name.now guard.now }
    ensures { result ≡ any_of_ports (guard_at (sight_of site.now) (known names.now) name.now guard.now)
        (spec.ports_of (sight_of site.now) set) }
{
    let mut inner = names.bind(name, Port::default());
    for port in pairs(site) {
        if !is_one_of(set, site, *port) {
            continue;
        }
        inner.set_last(*port);
        match quick_value(guard, site, &inner) {
            Ok(false) => {}
            Ok(true) => return Ok(true),
            Err(failure) => return Err(failure),
        }
    }
    Ok(false)
}

/// `all`: the first port of which the guard is not true decides.
#[inline(never)]
#[cycle(values)]
fn all_value<'p>(
    name: &'p Word,
    set: PortSet,
    guard: &'p Guard,
    site: &Site<'_>,
    names: &Names<'p>,
) -> Result<bool, Failure>
    requires { MayAsk (known names.now) name.now guard.now }
    ensures { result ≡ all_of_ports (guard_at (sight_of site.now) (known names.now) name.now guard.now)
        (spec.ports_of (sight_of site.now) set) }
{
    let mut inner = names.bind(name, Port::default());
    for port in pairs(site) {
        if !is_one_of(set, site, *port) {
            continue;
        }
        inner.set_last(*port);
        match quick_value(guard, site, &inner) {
            Ok(true) => {}
            Ok(false) => return Ok(false),
            Err(failure) => return Err(failure),
        }
    }
    Ok(true)
}

/// `first`: the first port of which the guard is not false. NoChoice, where there is none.
#[inline(never)]
#[cycle(values)]
fn first_value<'p>(
    name: &'p Word,
    set: PortSet,
    guard: &'p Guard,
    site: &Site<'_>,
    names: &Names<'p>,
) -> Result<Port, Failure>
    requires { MayAsk (known names.now) name.now guard.now }
    ensures { result ≡ first_of_ports (guard_at (sight_of site.now) (known names.now) name.now guard.now)
        (spec.ports_of (sight_of site.now) set) }
{
    let mut inner = names.bind(name, Port::default());
    for port in pairs(site) {
        if !is_one_of(set, site, *port) {
            continue;
        }
        inner.set_last(*port);
        match quick_value(guard, site, &inner) {
            Ok(false) => {}
            Ok(true) => return Ok(*port),
            Err(failure) => return Err(failure),
        }
    }
    Err(Failure::NoChoice)
}

/// `count`: of how many ports the guard is true.
#[inline(never)]
#[cycle(values)]
fn count_value<'p>(
    name: &'p Word,
    set: PortSet,
    guard: &'p Guard,
    site: &Site<'_>,
    names: &Names<'p>,
) -> Result<u8, Failure>
    requires { MayAsk (known names.now) name.now guard.now }
    ensures value { result ≡ count_of_ports
        (guard_at (sight_of site.now) (known names.now) name.now guard.now)
        (spec.ports_of (sight_of site.now) set) }
    ensures few { IfOk result (λ n. n < 13) }
{
    let mut inner = names.bind(name, Port::default());
    let mut count = 0;
    for port in pairs(site) {
        if !is_one_of(set, site, *port) {
            continue;
        }
        inner.set_last(*port);
        let is_one = match quick_value(guard, site, &inner) {
            Ok(is_one) => is_one,
            Err(failure) => return Err(failure),
        };
        if is_one {
            count += 1;
        }
    }
    Ok(count)
}

/// The value of a sum.
/// It has at most 64 terms, each of at most 65,535 in size, so it stays far within 32 bits.
#[tactic(auto, using(crate::proofs::Evaluated::value_steps))]
#[cycle(values)]
pub fn sum_value<'p>(sum: &'p Sum, site: &Site<'_>, names: &Names<'p>) -> Result<i32, Failure>
    requires kept { SumKept (scope_of (known names.now)) (view.sum_of sum.now) }
    requires placed { sum_placed sum.now (scope_of (known names.now)) ≡ true }
    requires counted { is_sum (view.sum_of sum.now) ≡ true }
    ensures { result ≡ spec.sum_value (sight_of site.now) (known names.now) (view.sum_of sum.now) }
{
    let mut total = 0;
    for part in &sum.parts {
        let value = term_value(&part.term, site, names)?;
        total += signed(part.minus, value);
    }
    Ok(total)
}

/// The value of a term without its sign.
#[tactic(auto, using(crate::proofs::Evaluated::value_steps))]
#[cycle(values)]
fn term_value<'p>(term: &'p Term, site: &Site<'_>, names: &Names<'p>) -> Result<i32, Failure>
    requires kept { TermKept (scope_of (known names.now)) (view.term_of term.now) }
    requires placed { term_placed term.now (scope_of (known names.now)) ≡ true }
    requires counted { is_term (view.term_of term.now) ≡ true }
    ensures value { result ≡ spec.term_value (sight_of site.now) (known names.now) (view.term_of term.now) }
    ensures range { IfOk result (λ x. (pos 0 ≤ℤ x) × (x ≤ℤ pos most_literal)) }
{
    match term {
        Term::Number(number) => Ok(number.value as i32),
        Term::Own(name) => {
            let value = site.read(None, names.var_number(name))?;
            Ok(i32::from(value))
        }
        Term::Of(port, name) => {
            let port = port_value(port, site, names)?;
            let value = site.read(Some(port), names.var_number(name))?;
            Ok(i32::from(value))
        }
        Term::Count(name, set, guard) => {
            let count = count_value(name, *set, guard, site, names)?;
            Ok(i32::from(count))
        }
        Term::Dir(port) => {
            let port = port_value(port, site, names)?;
            if is_own_port(port, site) {
                Ok(i32::from(port.dir))
            } else {
                Err(Failure::NoPort)
            }
        }
        Term::PeerDir(port) => {
            let port = port_value(port, site, names)?;
            let seen = site.peer(port)?;
            Ok(i32::from(seen.dir))
        }
        Term::Inner => {
            let local = inner_value(site.own())?;
            Ok(i32::from(local))
        }
        Term::Mod6(sum) => {
            let value = sum_value(sum, site, names)?;
            Ok(value.rem_euclid(6))
        }
    }
}

/// The pair that a port expression names. Most are names, or turned from one.
#[inline(always)]
#[cycle(values)]
fn quick_port<'p>(port: &'p PortExpr, site: &Site<'_>, names: &Names<'p>) -> Result<Port, Failure>
    requires kept { PortKept (scope_of (known names.now)) (view.port_of port.now) }
    requires placed { port_placed port.now (scope_of (known names.now)) ≡ true }
    requires counted { is_port_expr (view.port_of port.now) ≡ true }
    ensures { result ≡ spec.port_value (sight_of site.now) (known names.now) (view.port_of port.now) }
{
    match simple_port(port, names) {
        Some(port) => Ok(port),
        None => port_value(port, site, names),
    }
}

/// The pair that a port expression names.
#[tactic(auto, using(crate::proofs::Evaluated::value_steps))]
#[cycle(values)]
pub fn port_value<'p>(
    port: &'p PortExpr,
    site: &Site<'_>,
    names: &Names<'p>,
) -> Result<Port, Failure>
    requires kept { PortKept (scope_of (known names.now)) (view.port_of port.now) }
    requires placed { port_placed port.now (scope_of (known names.now)) ≡ true }
    requires counted { is_port_expr (view.port_of port.now) ≡ true }
    ensures { result ≡ spec.port_value (sight_of site.now) (known names.now) (view.port_of port.now) }
{
    match port {
        PortExpr::Name(name) => Ok(names.port_named(name)),
        PortExpr::At(end, direction) => {
            let dir = direction_value(direction, site, names)?;
            Ok(Port { end: *end, dir })
        }
        PortExpr::Turn(port, number) => {
            let port = port_value(port, site, names)?;
            Ok(Port {
                end: port.end,
                dir: ((u32::from(port.dir) + number.value) % 6) as u8,
            })
        }
        PortExpr::First(name, set, guard) => first_value(name, *set, guard, site, names),
    }
}

/// A local direction. NoPort, the value of the variable is none.
fn direction_value(direction: &DirTerm, site: &Site<'_>, names: &Names<'_>) -> Result<u8, Failure>
    requires kept { DirTermKept (scope_of (known names.now)) (view.dirterm_of direction.now) }
    requires placed { dirterm_placed direction.now (scope_of (known names.now)) ≡ true }
    ensures { result ≡ spec.dirterm_value (sight_of site.now)
        (known names.now) (view.dirterm_of direction.now) }
{
    match direction {
        DirTerm::Number(number) => Ok(number.value as u8),
        DirTerm::Own(name) => {
            let dir = site.read(None, names.var_number(name))?;
            if dir > 5 {
                return Err(Failure::NoPort);
            }
            Ok(dir)
        }
    }
}
