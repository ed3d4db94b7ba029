//! Comparisons of simple sums: of a number, an own variable,
//! or a variable behind a name in force or a pair turned from it.
//! Most comparisons are such.

ghost use Rattle.std.specs.Prelude.{◌≡◌, true, IfSome, Ok};
ghost use Rattle.model_ops.specs.Sights.{Sight};
ghost use Rattle.action_tree.specs.Places.{port_placed, term_placed, sum_placed};
ghost use Rattle.action_tree.specs.Trees as tree;
ghost use Rattle.action_tree.specs.Views as view;
ghost use Rattle.action_check.specs.Rules.{PortKept, SumKept, TermKept};
ghost use Rattle.action_meaning.specs.Values as spec;
ghost use Rattle.action_eval.specs.Known.{known, scope_of, sight_of};

use crate::names::Names;
use crate::number::compare;
use action_tree::{Cmp, PortExpr, Sum, Term};
use amoebot_state::Port;
use model_ops::Site;

/// The comparison of two simple sums. None, where one of them is not simple or fails.
#[inline(always)]
pub fn simple_comparison(
    left: &Sum,
    cmp: Cmp,
    right: &Sum,
    site: &Site<'_>,
    names: &Names<'_>,
) -> Option<bool>
    requires left_kept { SumKept (scope_of (known names.now)) (view.sum_of left.now) }
    requires left_placed { sum_placed left.now (scope_of (known names.now)) ≡ true }
    requires right_kept { SumKept (scope_of (known names.now)) (view.sum_of right.now) }
    requires right_placed { sum_placed right.now (scope_of (known names.now)) ≡ true }
    ensures { IfSome result (λ value. spec.guard_value (sight_of site.now) (known names.now)
        (tree.comparison (view.sum_of left.now) cmp (view.sum_of right.now)) ≡ Ok value) }
{
    let left = simple_sum(left, site, names)?;
    let right = simple_sum(right, site, names)?;
    Some(compare(cmp, left, right))
}

/// The value of a sum of one simple term without a minus. None, where it is another sum or fails.
#[inline(always)]
fn simple_sum(sum: &Sum, site: &Site<'_>, names: &Names<'_>) -> Option<i32>
    requires kept { SumKept (scope_of (known names.now)) (view.sum_of sum.now) }
    requires placed { sum_placed sum.now (scope_of (known names.now)) ≡ true }
    ensures { IfSome result (λ x.
        spec.sum_value (sight_of site.now) (known names.now) (view.sum_of sum.now) ≡ Ok x) }
{
    let parts = sum.parts.as_slice();
    if parts.len() != 1 || parts[0].minus {
        return None;
    }
    simple_term(&parts[0].term, site, names)
}

/// The value of a number or of a variable. None, where it is another term or fails.
#[inline(always)]
fn simple_term(term: &Term, site: &Site<'_>, names: &Names<'_>) -> Option<i32>
    requires kept { TermKept (scope_of (known names.now)) (view.term_of term.now) }
    requires placed { term_placed term.now (scope_of (known names.now)) ≡ true }
    ensures { IfSome result (λ x.
        spec.term_value (sight_of site.now) (known names.now) (view.term_of term.now) ≡ Ok x) }
{
    match term {
        Term::Number(number) => Some(number.value as i32),
        Term::Own(name) => {
            let value = site.read(None, names.var_number(name)).ok()?;
            Some(i32::from(value))
        }
        Term::Of(port, name) => {
            let port = simple_port(port, names)?;
            let value = site.read(Some(port), names.var_number(name)).ok()?;
            Some(i32::from(value))
        }
        _ => None,
    }
}

/// The pair that a name stands for, or one that is turned from it.
/// None, where it is another expression.
#[inline(always)]
pub fn simple_port(port: &PortExpr, names: &Names<'_>) -> Option<Port>
    requires kept { PortKept (scope_of (known names.now)) (view.port_of port.now) }
    requires placed { port_placed port.now (scope_of (known names.now)) ≡ true }
    ensures { IfSome result (λ p.
        (s : Sight) → spec.port_value s (known names.now) (view.port_of port.now) ≡ Ok p) }
{
    match port {
        PortExpr::Turn(port, number) => {
            let port = named_port(port, names)?;
            Some(Port {
                end: port.end,
                dir: ((u32::from(port.dir) + number.value) % 6) as u8,
            })
        }
        _ => named_port(port, names),
    }
}

/// The pair that a name stands for. None, where it is another expression.
#[inline(always)]
fn named_port(port: &PortExpr, names: &Names<'_>) -> Option<Port>
    requires kept { PortKept (scope_of (known names.now)) (view.port_of port.now) }
    requires placed { port_placed port.now (scope_of (known names.now)) ≡ true }
    ensures { IfSome result (λ p.
        (s : Sight) → spec.port_value s (known names.now) (view.port_of port.now) ≡ Ok p) }
{
    match port {
        PortExpr::Name(name) => Some(names.port_named(name)),
        _ => None,
    }
}
