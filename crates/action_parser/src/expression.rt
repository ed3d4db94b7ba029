//! Guards, sums and ports.
//! They contain each other, one level deeper behind each token that opens one.
//!
//! Each function knows how many more levels may be opened, and how many more names may be bound.

ghost use Rattle.std.specs.Prelude.{◌<◌, IfOk, IfSome, option_map};
ghost use Rattle.text_tokens.specs.{Steps.{Gives, another}, Reading.{behind_sign}};
ghost use Rattle.action_tree.specs.Views.{guard_of, sum_of, part_of, term_of, port_of};
ghost use Rattle.action_tree.specs.{Roles.{is_a, is_plus_or_minus}, ExpressionReaders.{inside}};
ghost use Rattle.action_tree.specs.declared.role.Role.TheVariants as role;
ghost use Rattle.action_tree.specs.ExpressionReaders as spec;
ghost use Rattle.action_parser.specs.Selections.{selection_of};

use crate::full::{begins_sum, full_guard, full_sum};
use crate::roles::{is_next, next_role, open, token, unexpected};
use crate::selection::{Selection, quantified};
use crate::words::{
    atom, bound_name, comparison, direction, dirterm, end, is_joint, joint, literal, member, minus,
    name, own_or_member, port_set, test, tested, text,
};
use action_tree::{Guard, Part, PortExpr, Role, Sum, Term};
use std::alloc::Global;
use text_tokens::{ReadRefusal, Tokens};

/// How many elements of an `and` or an `or`, or terms of a sum, may stand behind the first.
const MORE: u32 = 63;

/// How many terms of a sum have room at once: most sums have no more.
const FEW: usize = 2;

/// An expression: elements that `or` joins. One alone is itself.
#[cycle(expression)]
pub fn read_guard(
    alloc: Global,
    tokens: &mut Tokens<'_>,
    levels: u32,
    names: u32,
) -> Result<Guard, ReadRefusal>
    ensures { Gives guard_of (spec.expr_at levels names) tokens.old result tokens.new }
{
    let first = read_conj(alloc, tokens, levels, names)?;
    let Some(second) = more_conj(alloc, tokens, levels, names, MORE)? else {
        return Ok(first);
    };
    let mut found = Vec::new(alloc);
    found.push(first)?;
    found.push(second)?;
    let mut room = MORE - 1;
    while let Some(next) = more_conj(alloc, tokens, levels, names, room)? {
        found.push(next)?;
        room -= 1;
    }
    Ok(Guard::Or(found))
}

/// One more element behind an `or`, if one comes, where so many more may come.
#[cycle(expression)]
fn more_conj(
    alloc: Global,
    tokens: &mut Tokens<'_>,
    levels: u32,
    names: u32,
    room: u32,
) -> Result<Option<Guard>, ReadRefusal>
    ensures reads { Gives (λ o. option_map guard_of o)
        (another (is_a role.OrWord)
        (behind_sign (is_a role.OrWord) (spec.conj_in levels names (inside levels)) room))
        tokens.old result tokens.new }
    ensures room { IfOk result (λ o. IfSome o (λ _. 0 < room)) }
{
    if !is_next(tokens, Role::OrWord) {
        return Ok(None);
    }
    token(tokens, Role::OrWord)?;
    if room == 0 {
        return Err(full_guard(tokens, levels).into());
    }
    Ok(Some(read_conj(alloc, tokens, levels, names)?))
}

/// Elements that `and` joins. One alone is itself.
#[cycle(expression)]
fn read_conj(
    alloc: Global,
    tokens: &mut Tokens<'_>,
    levels: u32,
    names: u32,
) -> Result<Guard, ReadRefusal>
    ensures { Gives guard_of (spec.a_conj levels names (inside levels)) tokens.old result tokens.new }
{
    let first = read_unit(alloc, tokens, levels, names)?;
    let Some(second) = more_unit(alloc, tokens, levels, names, MORE)? else {
        return Ok(first);
    };
    let mut found = Vec::new(alloc);
    found.push(first)?;
    found.push(second)?;
    let mut room = MORE - 1;
    while let Some(next) = more_unit(alloc, tokens, levels, names, room)? {
        found.push(next)?;
        room -= 1;
    }
    Ok(Guard::And(found))
}

/// One more element behind an `and`, if one comes, where so many more may come.
#[cycle(expression)]
fn more_unit(
    alloc: Global,
    tokens: &mut Tokens<'_>,
    levels: u32,
    names: u32,
    room: u32,
) -> Result<Option<Guard>, ReadRefusal>
    ensures reads { Gives (λ o. option_map guard_of o)
        (another (is_a role.AndWord)
        (behind_sign (is_a role.AndWord) (spec.unit_in levels names (inside levels)) room))
        tokens.old result tokens.new }
    ensures room { IfOk result (λ o. IfSome o (λ _. 0 < room)) }
{
    if !is_next(tokens, Role::AndWord) {
        return Ok(None);
    }
    token(tokens, Role::AndWord)?;
    if room == 0 {
        return Err(full_guard(tokens, levels).into());
    }
    Ok(Some(read_unit(alloc, tokens, levels, names)?))
}

/// An element of an `and`. A parenthesis makes no node.
#[cycle(expression)]
fn read_unit(
    alloc: Global,
    tokens: &mut Tokens<'_>,
    levels: u32,
    names: u32,
) -> Result<Guard, ReadRefusal>
    ensures { Gives guard_of (spec.a_unit levels names (inside levels)) tokens.old result tokens.new }
{
    let Some(role) = next_role(tokens) else {
        return Err(unexpected(tokens));
    };
    match role {
        Role::AtomWord => Ok(atom(text(tokens, Role::AtomWord)?)),
        Role::NotWord => {
            open(tokens, Role::NotWord, levels)?;
            let guard = read_unit(alloc, tokens, levels - 1, names)?;
            Ok(Guard::Not(Box::new(alloc, guard)?))
        }
        Role::OpenSign => {
            open(tokens, Role::OpenSign, levels)?;
            let guard = read_guard(alloc, tokens, levels - 1, names)?;
            token(tokens, Role::CloseSign)?;
            Ok(guard)
        }
        Role::QuantifierWord => {
            let word = text(tokens, Role::QuantifierWord)?;
            let selection = read_selection(alloc, tokens, levels, names)?;
            Ok(quantified(word, selection))
        }
        Role::TestWord | Role::FreeWord => {
            let word = test(tokens)?;
            let port = read_port(alloc, tokens, levels, names)?;
            Ok(tested(word, port))
        }
        _ => {
            if !begins_sum(role) {
                return Err(unexpected(tokens));
            }
            let left = read_sum(alloc, tokens, levels, names)?;
            let cmp = comparison(tokens)?;
            let right = read_sum(alloc, tokens, levels, names)?;
            Ok(Guard::Compare(left, cmp, right))
        }
    }
}

/// A sum. Its first term may have a minus.
#[cycle(expression)]
pub fn read_sum(
    alloc: Global,
    tokens: &mut Tokens<'_>,
    levels: u32,
    names: u32,
) -> Result<Sum, ReadRefusal>
    ensures { Gives sum_of (spec.sum_at levels names) tokens.old result tokens.new }
{
    let minus = minus(tokens)?;
    let term = read_term(alloc, tokens, levels, names)?;
    let mut parts = Vec::with_capacity(alloc, FEW)?;
    parts.push(Part { minus, term })?;
    let mut room = MORE;
    while let Some(part) = more_part(alloc, tokens, levels, names, room)? {
        parts.push(part)?;
        room -= 1;
    }
    Ok(Sum { parts })
}

/// One more term behind a sign, if one comes, where so many more may come.
#[cycle(expression)]
fn more_part(
    alloc: Global,
    tokens: &mut Tokens<'_>,
    levels: u32,
    names: u32,
    room: u32,
) -> Result<Option<Part>, ReadRefusal>
    ensures reads { Gives (λ o. option_map part_of o)
        (another is_plus_or_minus
        (behind_sign is_plus_or_minus (spec.part_in levels names (inside levels)) room))
        tokens.old result tokens.new }
    ensures room { IfOk result (λ o. IfSome o (λ _. 0 < room)) }
{
    if !is_joint(tokens) {
        return Ok(None);
    }
    let minus = joint(tokens)?;
    if room == 0 {
        return Err(full_sum(tokens, levels).into());
    }
    let term = read_term(alloc, tokens, levels, names)?;
    Ok(Some(Part { minus, term }))
}

/// A term, without its sign. A name is a variable, or a port where a dot stands behind it.
#[cycle(expression)]
fn read_term(
    alloc: Global,
    tokens: &mut Tokens<'_>,
    levels: u32,
    names: u32,
) -> Result<Term, ReadRefusal>
    ensures { Gives term_of (spec.a_term levels names (inside levels)) tokens.old result tokens.new }
{
    let Some(role) = next_role(tokens) else {
        return Err(unexpected(tokens));
    };
    match role {
        Role::ANumber => Ok(Term::Number(literal(tokens)?)),
        Role::AName => own_or_member(tokens),
        Role::EndWord | Role::TurnWord | Role::FirstWord => {
            let port = read_port(alloc, tokens, levels, names)?;
            member(tokens, port)
        }
        Role::CountWord => {
            token(tokens, Role::CountWord)?;
            let selection = read_selection(alloc, tokens, levels, names)?;
            Ok(Term::Count(selection.name, selection.set, selection.guard))
        }
        Role::SideWord => {
            let word = text(tokens, Role::SideWord)?;
            let port = read_port(alloc, tokens, levels, names)?;
            Ok(direction(word, port))
        }
        Role::InnerWord => {
            token(tokens, Role::InnerWord)?;
            Ok(Term::Inner)
        }
        Role::Mod6Word => {
            token(tokens, Role::Mod6Word)?;
            open(tokens, Role::OpenSign, levels)?;
            let sum = read_sum(alloc, tokens, levels - 1, names)?;
            token(tokens, Role::CloseSign)?;
            Ok(Term::Mod6(sum))
        }
        _ => Err(unexpected(tokens)),
    }
}

/// A port.
#[cycle(expression)]
pub fn read_port(
    alloc: Global,
    tokens: &mut Tokens<'_>,
    levels: u32,
    names: u32,
) -> Result<PortExpr, ReadRefusal>
    ensures { Gives port_of (spec.port_at levels names) tokens.old result tokens.new }
{
    let Some(role) = next_role(tokens) else {
        return Err(unexpected(tokens));
    };
    match role {
        Role::AName => Ok(PortExpr::Name(name(tokens)?)),
        Role::EndWord => {
            let end = end(tokens)?;
            Ok(PortExpr::At(end, dirterm(tokens)?))
        }
        Role::TurnWord => {
            open(tokens, Role::TurnWord, levels)?;
            let port = read_port(alloc, tokens, levels - 1, names)?;
            let by = literal(tokens)?;
            Ok(PortExpr::Turn(Box::new(alloc, port)?, by))
        }
        Role::FirstWord => {
            token(tokens, Role::FirstWord)?;
            let selection = read_selection(alloc, tokens, levels, names)?;
            Ok(PortExpr::First(selection.name, selection.set, selection.guard))
        }
        _ => Err(unexpected(tokens)),
    }
}

/// A name for the ports of a set, and a guard in parentheses, in which the name is in force.
#[cycle(expression)]
pub fn read_selection(
    alloc: Global,
    tokens: &mut Tokens<'_>,
    levels: u32,
    names: u32,
) -> Result<Selection, ReadRefusal>
    ensures { Gives selection_of (spec.selection_at levels names) tokens.old result tokens.new }
{
    let name = bound_name(tokens, names)?;
    token(tokens, Role::InWord)?;
    let set = port_set(tokens)?;
    open(tokens, Role::OpenSign, levels)?;
    let guard = read_guard(alloc, tokens, levels - 1, names - 1)?;
    token(tokens, Role::CloseSign)?;
    Ok(Selection {
        name,
        set,
        guard: Box::new(alloc, guard)?,
    })
}
