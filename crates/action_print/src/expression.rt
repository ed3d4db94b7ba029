//! Guards, sums and ports. They contain each other.

ghost use Rattle.std.specs.Prelude.{◌≡◌, ◌++◌, codes, OnOk};
ghost use Rattle.text_tokens.specs.Lines.{spaced};
ghost use Rattle.action_tree.specs.Views.{guard_of, guards_of, name_of, port_of, sum_of, term_of, terms_of};
ghost use Rattle.action_tree.specs.Writable as writable;
ghost use Rattle.action_print.specs.Canon.{selection_words, conjs, guard_words, joined, parens_unless};
ghost use Rattle.action_print.specs.Canon.{port_words, sum_words, term_words, units};

use crate::token::{cmp_sign, put_between, put_dirterm, put_name, put_number, put_sign, set_word};
use action_tree::{Guard, Part, PortExpr, PortSet, Sum, Term, Word};
use std::alloc::AllocError;
use text_tokens::Lines;

/// Whether it needs no parentheses as an element of an `or`.
fn is_conj(guard: &Guard) -> bool
    ensures { result ≡ writable.is_conj (guard_of guard.now) }
{
    !matches!(guard, Guard::Or(_))
}

/// Whether it needs none as an element of an `and`, or behind a `not`.
fn is_unit(guard: &Guard) -> bool
    ensures { result ≡ writable.is_unit (guard_of guard.now) }
{
    !matches!(guard, Guard::And(_) | Guard::Or(_))
}

/// The tokens of a guard, a space before each, with no more parentheses than it needs.
#[cycle(expression)]
pub fn put_guard(lines: &mut Lines, guard: &Guard) -> Result<(), AllocError>
    ensures { OnOk result (lines.new ≡ lines.old ++ spaced (guard_words (guard_of guard.now))) }
{
    match guard {
        Guard::True => lines.word("true"),
        Guard::False => lines.word("false"),
        Guard::Contracted => lines.word("contracted"),
        Guard::Expanded => lines.word("expanded"),
        Guard::Not(negated) => {
            lines.word("not")?;
            put_element(lines, negated, is_unit(negated))
        }
        Guard::And(elements) => put_units(lines, elements),
        Guard::Or(elements) => put_conjs(lines, elements),
        Guard::Any(name, set, asked) => {
            lines.word("any")?;
            put_selection(lines, name, *set, asked)
        }
        Guard::All(name, set, asked) => {
            lines.word("all")?;
            put_selection(lines, name, *set, asked)
        }
        Guard::Linked(port) => {
            lines.word("linked")?;
            put_port(lines, port)
        }
        Guard::Free(port) => {
            lines.word("free")?;
            put_port(lines, port)
        }
        Guard::AtHead(port) => {
            lines.word("at_head")?;
            put_port(lines, port)
        }
        Guard::PeerExpanded(port) => {
            lines.word("peer_expanded")?;
            put_port(lines, port)
        }
        Guard::PeerHead(port) => {
            lines.word("peer_head")?;
            put_port(lines, port)
        }
        Guard::Compare(left, cmp, right) => {
            put_sum(lines, left)?;
            lines.word(cmp_sign(*cmp))?;
            put_sum(lines, right)
        }
    }
}

/// A guard as it stands, or in parentheses.
#[cycle(expression)]
fn put_element(lines: &mut Lines, guard: &Guard, stands: bool) -> Result<(), AllocError>
    ensures { OnOk result (
        lines.new ≡ lines.old ++ spaced (parens_unless stands (guard_words (guard_of guard.now)))) }
{
    if stands {
        return put_guard(lines, guard);
    }
    lines.word("(")?;
    put_guard(lines, guard)?;
    lines.word(")")
}

/// The elements of an `and`.
#[cycle(expression)]
fn put_units(lines: &mut Lines, elements: &[Guard]) -> Result<(), AllocError>
    ensures { OnOk result (
        lines.new ≡ lines.old ++ spaced (joined (codes "and") (units (guards_of elements.now)))) }
{
    for (place, guard) in elements.iter().enumerate() {
        put_between(lines, place, "and")?;
        put_element(lines, guard, is_unit(guard))?;
    }
    Ok(())
}

/// The elements of an `or`.
#[cycle(expression)]
fn put_conjs(lines: &mut Lines, elements: &[Guard]) -> Result<(), AllocError>
    ensures { OnOk result (
        lines.new ≡ lines.old ++ spaced (joined (codes "or") (conjs (guards_of elements.now)))) }
{
    for (place, guard) in elements.iter().enumerate() {
        put_between(lines, place, "or")?;
        put_element(lines, guard, is_conj(guard))?;
    }
    Ok(())
}

/// A name for the ports of a set, and what is asked of them.
#[cycle(expression)]
pub fn put_selection(
    lines: &mut Lines,
    name: &Word,
    set: PortSet,
    asked: &Guard,
) -> Result<(), AllocError>
    ensures { OnOk result (lines.new
        ≡ lines.old ++ spaced (
        selection_words (name_of name.now).text set (guard_words (guard_of asked.now)))) }
{
    put_name(lines, name)?;
    lines.word("in")?;
    lines.word(set_word(set))?;
    lines.word("(")?;
    put_guard(lines, asked)?;
    lines.word(")")
}

/// The tokens of a sum, a space before each: its terms with their signs.
#[cycle(expression)]
pub fn put_sum(lines: &mut Lines, sum: &Sum) -> Result<(), AllocError>
    ensures { OnOk result (lines.new ≡ lines.old ++ spaced (sum_words (sum_of sum.now))) }
{
    put_parts(lines, &sum.parts)
}

#[cycle(expression)]
fn put_parts(lines: &mut Lines, parts: &[Part]) -> Result<(), AllocError>
    ensures { OnOk result (lines.new ≡ lines.old ++ spaced (sum_words (terms_of parts.now))) }
{
    for (place, part) in parts.iter().enumerate() {
        put_sign(lines, place, part.minus)?;
        put_term(lines, &part.term)?;
    }
    Ok(())
}

#[cycle(expression)]
fn put_term(lines: &mut Lines, term: &Term) -> Result<(), AllocError>
    ensures { OnOk result (lines.new ≡ lines.old ++ spaced (term_words (term_of term.now))) }
{
    match term {
        Term::Number(number) => put_number(lines, number),
        Term::Own(name) => put_name(lines, name),
        Term::Of(port, name) => {
            put_port(lines, port)?;
            lines.word(".")?;
            put_name(lines, name)
        }
        Term::Count(name, set, asked) => {
            lines.word("count")?;
            put_selection(lines, name, *set, asked)
        }
        Term::Dir(port) => {
            lines.word("dir")?;
            put_port(lines, port)
        }
        Term::PeerDir(port) => {
            lines.word("peer_dir")?;
            put_port(lines, port)
        }
        Term::Inner => lines.word("inner"),
        Term::Mod6(sum) => {
            lines.word("mod6")?;
            lines.word("(")?;
            put_sum(lines, sum)?;
            lines.word(")")
        }
    }
}

/// The tokens of a port, a space before each.
#[cycle(expression)]
pub fn put_port(lines: &mut Lines, port: &PortExpr) -> Result<(), AllocError>
    ensures { OnOk result (lines.new ≡ lines.old ++ spaced (port_words (port_of port.now))) }
{
    match port {
        PortExpr::Name(name) => put_name(lines, name),
        PortExpr::At(end, dir) => {
            lines.word((*end).word())?;
            put_dirterm(lines, dir)
        }
        PortExpr::Turn(inner, number) => {
            lines.word("turn")?;
            put_port(lines, inner)?;
            put_number(lines, number)
        }
        PortExpr::First(name, set, asked) => {
            lines.word("first")?;
            put_selection(lines, name, *set, asked)
        }
    }
}
