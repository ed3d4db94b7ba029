//! Whether parts of a tree are what they are to be, lines aside. Nothing here takes memory.

ghost use Rattle.std.specs.Prelude.{◌≡◌, ◌≢◌, Decides, IfSome, IfNone, true, false};
ghost use Rattle.action_tree.specs.Lines.{bare_guard, bare_literal, bare_name, bare_port, bare_stmt};
ghost use Rattle.action_tree.specs.Lines.{bare_sum, bare_term};
ghost use Rattle.action_tree.specs.Shipped.{example_name, literal, own_is, sum_of_term};
ghost use Rattle.action_tree.specs.Trees as tree;
ghost use Rattle.action_tree.specs.Views as view;

use action_tree::{Cmp, Guard, Lit, Part, PortExpr, Stmt, Sum, Term, Word};

/// The name is this text.
pub(crate) fn is_name(word: &Word, text: &str) -> bool
    ensures { Decides result (bare_name (view.name_of word.now) ≡ example_name text.now) }
{
    word.text.as_str() == text
}

/// The number is this one.
pub(crate) fn is_number(number: &Lit, value: u32) -> bool
    ensures { Decides result (bare_literal (view.literal_of number.now) ≡ literal value) }
{
    number.value == value
}

/// The port is the one that this name stands for.
pub(crate) fn is_named_port(port: &PortExpr, name: &str) -> bool
    ensures { Decides result (bare_port (view.port_of port.now) ≡ tree.bound (example_name name.now)) }
{
    match port {
        PortExpr::Name(word) => is_name(word, name),
        PortExpr::At(_, _) | PortExpr::Turn(_, _) | PortExpr::First(_, _, _) => false,
    }
}

/// The port is the one that this name stands for, turned by so many directions.
pub(crate) fn is_turned_port(port: &PortExpr, name: &str, by: u32) -> bool
    ensures { Decides result (
        bare_port (view.port_of port.now) ≡ tree.turned (tree.bound (example_name name.now)) (literal by)) }
{
    match port {
        PortExpr::Turn(inner, number) => is_named_port(inner, name) && is_number(number, by),
        PortExpr::Name(_) | PortExpr::At(_, _) | PortExpr::First(_, _, _) => false,
    }
}

/// The one term of a sum that has one, without a minus.
pub(crate) fn only_term(sum: &Sum) -> Option<&Term>
    ensures some { IfSome result (λ term. view.sum_of sum.now ≡ sum_of_term (view.term_of term.now)) }
    ensures none { IfNone result ((term : tree.Term) → bare_sum (view.sum_of sum.now) ≢ sum_of_term term) }
{
    let parts = sum.parts.as_slice();
    if parts.len() == 1 {
        simple_term(&parts[0])
    } else {
        None
    }
}

/// The term of a part without a minus.
fn simple_term(part: &Part) -> Option<&Term>
    ensures some { IfSome result (λ term.
        view.part_of part.now ≡ record { minus = false; term = view.term_of term.now }) }
    ensures none { IfNone result ((view.part_of part.now).minus ≡ true) }
{
    if part.minus { None } else { Some(&part.term) }
}

/// The sum is this number alone.
pub(crate) fn is_number_sum(sum: &Sum, value: u32) -> bool
    ensures { Decides result (bare_sum (view.sum_of sum.now) ≡ sum_of_term (tree.number (literal value))) }
{
    match only_term(sum) {
        Some(term) => is_number_term(term, value),
        None => false,
    }
}

fn is_number_term(term: &Term, value: u32) -> bool
    ensures { Decides result (bare_term (view.term_of term.now) ≡ tree.number (literal value)) }
{
    match term {
        Term::Number(number) => is_number(number, value),
        Term::Own(_) | Term::Of(_, _) | Term::Count(_, _, _) => false,
        Term::Dir(_) | Term::PeerDir(_) | Term::Inner | Term::Mod6(_) => false,
    }
}

/// The sum is this own variable alone.
fn is_own_sum(sum: &Sum, name: &str) -> bool
    ensures { Decides result (
        bare_sum (view.sum_of sum.now) ≡ sum_of_term (tree.own (example_name name.now))) }
{
    match only_term(sum) {
        Some(term) => is_own_term(term, name),
        None => false,
    }
}

fn is_own_term(term: &Term, name: &str) -> bool
    ensures { Decides result (bare_term (view.term_of term.now) ≡ tree.own (example_name name.now)) }
{
    match term {
        Term::Own(word) => is_name(word, name),
        Term::Number(_) | Term::Of(_, _) | Term::Count(_, _, _) => false,
        Term::Dir(_) | Term::PeerDir(_) | Term::Inner | Term::Mod6(_) => false,
    }
}

/// The guard asks whether this own variable is this number.
pub(crate) fn is_own_comparison(guard: &Guard, name: &str, value: u32) -> bool
    ensures { Decides result (bare_guard (view.guard_of guard.now) ≡ own_is name.now value) }
{
    match guard {
        Guard::Compare(left, Cmp::Eq, right) => is_own_sum(left, name)
            && is_number_sum(right, value),
        _ => false,
    }
}

/// The statement puts this number into this own variable.
pub(crate) fn is_put_number(stmt: &Stmt, name: &str, value: u32) -> bool
    ensures { Decides result
        (bare_stmt (view.stmt_of stmt.now)
        ≡ tree.put (example_name name.now) (sum_of_term (tree.number (literal value)))) }
{
    match stmt {
        Stmt::Put(word, sum) => is_name(word, name) && is_number_sum(sum, value),
        _ => false,
    }
}
