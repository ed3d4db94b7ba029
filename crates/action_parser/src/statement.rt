//! Statements, and the movement behind them.

ghost use Rattle.std.specs.Prelude.{◌≡◌, ◌<◌, IfOk, IfSome, option_map};
ghost use Rattle.text_tokens.specs.{Steps.{Gives, another}, Reading.{behind_sign}};
ghost use Rattle.action_tree.specs.Limits.{most_further};
ghost use Rattle.action_tree.specs.Productions.{names_left_after, names_left_after_all};
ghost use Rattle.action_tree.specs.{Views.{guard_of, stmt_of, stmts_of, port_of, move_of}, Roles.{is_a}};
ghost use Rattle.action_tree.specs.StatementReaders.{stmts_inside};
ghost use Rattle.action_tree.specs.Trees as tree;
ghost use Rattle.action_tree.specs.StatementReaders as spec;
ghost use Rattle.action_tree.specs.ProgramReaders as programs;
ghost use Rattle.action_tree.specs.declared.role.Role.TheVariants as role;
ghost use Rattle.action_parser.specs.Selections.{selection_of};

use crate::expression::{read_guard, read_port, read_selection, read_sum};
use crate::full::full_stmts;
use crate::roles::{is_next, next_role, open, token, unexpected};
use crate::selection::Selection;
use crate::words::{bound_name, end, moved_through, name, text};
use action_tree::{Guard, Move, PortExpr, Role, Stmt};
use std::alloc::Global;
use text_tokens::{ReadRefusal, Tokens};

/// How many statements of a list may stand behind its first.
fn further_stmts() -> u32
    ensures { result ≡ most_further }
{
    63
}

/// How many more names may be bound behind a statement: a `let` binds one.
fn names_after(names: u32, stmt: &Stmt) -> u32
    ensures { result ≡ names_left_after names (stmt_of stmt.now) }
{
    match stmt {
        Stmt::Let(_, _) => names.saturating_sub(1),
        _ => names,
    }
}

/// How many more names may be bound behind these statements.
fn names_behind(names: u32, stmts: &[Stmt]) -> u32
    ensures { result ≡ names_left_after_all names (stmts_of stmts.now) }
{
    let mut left = names;
    for stmt in stmts {
        left = names_after(left, stmt);
    }
    left
}

/// Statements that semicolons join.
#[cycle(statement)]
pub fn read_stmts(
    alloc: Global,
    tokens: &mut Tokens<'_>,
    levels: u32,
    names: u32,
) -> Result<Vec<Stmt>, ReadRefusal>
    ensures { Gives (λ v. stmts_of v.items) (spec.stmts_at levels names) tokens.old result tokens.new }
{
    let first = read_stmt(alloc, tokens, levels, names)?;
    let mut left = names_after(names, &first);
    let mut found = Vec::new(alloc);
    found.push(first)?;
    let mut room = further_stmts();
    while let Some(next) = more_stmt(alloc, tokens, levels, left, room)? {
        left = names_after(left, &next);
        found.push(next)?;
        room -= 1;
    }
    Ok(found)
}

/// One more statement behind a semicolon, if one comes, where so many more may come.
#[cycle(statement)]
fn more_stmt(
    alloc: Global,
    tokens: &mut Tokens<'_>,
    levels: u32,
    names: u32,
    room: u32,
) -> Result<Option<Stmt>, ReadRefusal>
    ensures reads { Gives (λ o. option_map stmt_of o)
        (another (is_a role.SemicolonSign)
        (behind_sign (is_a role.SemicolonSign) (spec.stmt_in levels (stmts_inside levels))
        (record { room = room; left = names })))
        tokens.old result tokens.new }
    ensures room { IfOk result (λ o. IfSome o (λ _. 0 < room)) }
{
    if !is_next(tokens, Role::SemicolonSign) {
        return Ok(None);
    }
    token(tokens, Role::SemicolonSign)?;
    if room == 0 {
        return Err(full_stmts(tokens, levels).into());
    }
    Ok(Some(read_stmt(alloc, tokens, levels, names)?))
}

/// A statement.
#[cycle(statement)]
fn read_stmt(
    alloc: Global,
    tokens: &mut Tokens<'_>,
    levels: u32,
    names: u32,
) -> Result<Stmt, ReadRefusal>
    ensures { Gives stmt_of (spec.a_stmt levels names (stmts_inside levels)) tokens.old result tokens.new }
{
    let Some(role) = next_role(tokens) else {
        return Err(unexpected(tokens));
    };
    match role {
        Role::AName => put_behind(alloc, tokens, levels, names),
        Role::EndWord | Role::TurnWord | Role::FirstWord => {
            let port = read_port(alloc, tokens, levels, names)?;
            put_of(alloc, tokens, levels, names, port)
        }
        Role::LetWord => read_let(alloc, tokens, levels, names),
        Role::IfWord => read_if(alloc, tokens, levels, names),
        Role::ForWord => read_for(alloc, tokens, levels, names),
        _ => Err(unexpected(tokens)),
    }
}

/// A variable is put, or that of the neighbour behind a bound name where a dot comes behind it.
fn put_behind(
    alloc: Global,
    tokens: &mut Tokens<'_>,
    levels: u32,
    names: u32,
) -> Result<Stmt, ReadRefusal>
    ensures { Gives stmt_of
        (spec.stmt_by levels names (stmts_inside levels) role.AName) tokens.old result tokens.new }
{
    let name = name(tokens)?;
    let Some(role) = next_role(tokens) else {
        return Err(unexpected(tokens));
    };
    match role {
        Role::BecomesSign => {
            token(tokens, Role::BecomesSign)?;
            let sum = read_sum(alloc, tokens, levels, names)?;
            Ok(Stmt::Put(name, sum))
        }
        Role::DotSign => put_of(alloc, tokens, levels, names, PortExpr::Name(name)),
        _ => Err(unexpected(tokens)),
    }
}

/// The variable of the neighbour behind a port is put.
fn put_of(
    alloc: Global,
    tokens: &mut Tokens<'_>,
    levels: u32,
    names: u32,
    port: PortExpr,
) -> Result<Stmt, ReadRefusal>
    ensures { Gives stmt_of (spec.put_member levels names (port_of port)) tokens.old result tokens.new }
{
    token(tokens, Role::DotSign)?;
    let name = name(tokens)?;
    token(tokens, Role::BecomesSign)?;
    let sum = read_sum(alloc, tokens, levels, names)?;
    Ok(Stmt::PutOf(port, name, sum))
}

/// A port gets a name, which is in force from the next statement on.
fn read_let(
    alloc: Global,
    tokens: &mut Tokens<'_>,
    levels: u32,
    names: u32,
) -> Result<Stmt, ReadRefusal>
    ensures { Gives stmt_of
        (spec.stmt_by levels names (stmts_inside levels) role.LetWord) tokens.old result tokens.new }
{
    token(tokens, Role::LetWord)?;
    let name = bound_name(tokens, names)?;
    token(tokens, Role::BecomesSign)?;
    let port = read_port(alloc, tokens, levels, names)?;
    Ok(Stmt::Let(name, port))
}

#[cycle(statement)]
fn read_if(
    alloc: Global,
    tokens: &mut Tokens<'_>,
    levels: u32,
    names: u32,
) -> Result<Stmt, ReadRefusal>
    ensures { Gives stmt_of (spec.an_if levels names (stmts_inside levels)) tokens.old result tokens.new }
{
    open(tokens, Role::IfWord, levels)?;
    let guard = read_guard(alloc, tokens, levels - 1, names)?;
    token(tokens, Role::ThenWord)?;
    let body = read_stmts(alloc, tokens, levels - 1, names)?;
    let otherwise = read_else(alloc, tokens, levels - 1, names)?;
    token(tokens, Role::FiWord)?;
    Ok(if_then(guard, body, otherwise))
}

/// The statements behind `else`, if it comes.
#[cycle(statement)]
fn read_else(
    alloc: Global,
    tokens: &mut Tokens<'_>,
    levels: u32,
    names: u32,
) -> Result<Vec<Stmt>, ReadRefusal>
    ensures { Gives (λ v. stmts_of v.items)
        (spec.else_part (spec.stmts_at levels) names) tokens.old result tokens.new }
{
    if !is_next(tokens, Role::ElseWord) {
        return Ok(Vec::new(alloc));
    }
    token(tokens, Role::ElseWord)?;
    read_stmts(alloc, tokens, levels, names)
}

/// A `for` opens a level, and the parenthesis inside it another one. Its name is in force in both.
#[cycle(statement)]
fn read_for(
    alloc: Global,
    tokens: &mut Tokens<'_>,
    levels: u32,
    names: u32,
) -> Result<Stmt, ReadRefusal>
    ensures { Gives stmt_of (spec.a_for levels names (stmts_inside levels)) tokens.old result tokens.new }
{
    open(tokens, Role::ForWord, levels)?;
    let selection = read_selection(alloc, tokens, levels - 1, names)?;
    token(tokens, Role::DoWord)?;
    let body = read_stmts(alloc, tokens, levels - 1, names.saturating_sub(1))?;
    token(tokens, Role::OdWord)?;
    Ok(for_each(selection, body))
}

/// An `if` of a guard, statements, and those behind `else`, which are none where it does not come.
fn if_then(guard: Guard, body: Vec<Stmt>, otherwise: Vec<Stmt>) -> Stmt
    ensures { stmt_of result
        ≡ tree.if_then (guard_of guard) (stmts_of body.items) (stmts_of otherwise.items) }
{
    Stmt::If(guard, body, otherwise)
}

/// A `for` of a selection and statements.
fn for_each(selection: Selection, body: Vec<Stmt>) -> Stmt
    ensures { stmt_of result ≡ tree.for_each (selection_of selection).name (selection_of selection).set
        (selection_of selection).guard (stmts_of body.items) }
{
    let Selection { name, set, guard } = selection;
    Stmt::For(name, set, Box::into_inner(guard), body)
}

/// The statements of an action behind `do`, if it comes.
pub fn read_body(
    alloc: Global,
    tokens: &mut Tokens<'_>,
    levels: u32,
    names: u32,
) -> Result<Vec<Stmt>, ReadRefusal>
    ensures { Gives (λ v. stmts_of v.items) (programs.a_body levels names) tokens.old result tokens.new }
{
    if !is_next(tokens, Role::DoWord) {
        return Ok(Vec::new(alloc));
    }
    token(tokens, Role::DoWord)?;
    read_stmts(alloc, tokens, levels, names)
}

/// The movement of an action behind `move`, if it comes.
/// What a `let` of these statements binds is in force.
pub fn read_moved(
    alloc: Global,
    tokens: &mut Tokens<'_>,
    levels: u32,
    names: u32,
    body: &[Stmt],
) -> Result<Move, ReadRefusal>
    ensures { Gives move_of (programs.a_moved levels (names_left_after_all names (stmts_of body.now)))
        tokens.old result tokens.new }
{
    if !is_next(tokens, Role::MoveWord) {
        return Ok(Move::None);
    }
    token(tokens, Role::MoveWord)?;
    read_move(alloc, tokens, levels, names_behind(names, body))
}

fn read_move(
    alloc: Global,
    tokens: &mut Tokens<'_>,
    levels: u32,
    names: u32,
) -> Result<Move, ReadRefusal>
    ensures { Gives move_of (programs.a_move levels names) tokens.old result tokens.new }
{
    let Some(role) = next_role(tokens) else {
        return Err(unexpected(tokens));
    };
    match role {
        Role::NoneWord => {
            token(tokens, Role::NoneWord)?;
            Ok(Move::None)
        }
        Role::ThroughWord => {
            let word = text(tokens, Role::ThroughWord)?;
            let port = read_port(alloc, tokens, levels, names)?;
            Ok(moved_through(word, port))
        }
        Role::ContractWord => {
            token(tokens, Role::ContractWord)?;
            let end = end(tokens)?;
            Ok(Move::Contract(end))
        }
        _ => Err(unexpected(tokens)),
    }
}
