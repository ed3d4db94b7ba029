//! Statements, and the movement behind them.

ghost use Rattle.std.specs.Prelude.{◌≡◌, ◌++◌, OnOk};
ghost use Rattle.text_tokens.specs.Lines.{spaced};
ghost use Rattle.action_tree.specs.Views.{move_of, stmt_of, stmts_of};
ghost use Rattle.action_print.specs.Canon.{else_words, move_words, stmt_words, stmts_words};

use crate::expression::{put_guard, put_port, put_selection, put_sum};
use crate::token::{put_between, put_name};
use action_tree::{Move, Stmt};
use std::alloc::AllocError;
use text_tokens::Lines;

#[cycle(statement)]
fn put_stmt(lines: &mut Lines, stmt: &Stmt) -> Result<(), AllocError>
    ensures { OnOk result (lines.new ≡ lines.old ++ spaced (stmt_words (stmt_of stmt.now))) }
{
    match stmt {
        Stmt::Put(name, sum) => {
            put_name(lines, name)?;
            lines.word(":=")?;
            put_sum(lines, sum)
        }
        Stmt::PutOf(port, name, sum) => {
            put_port(lines, port)?;
            lines.word(".")?;
            put_name(lines, name)?;
            lines.word(":=")?;
            put_sum(lines, sum)
        }
        Stmt::Let(name, port) => {
            lines.word("let")?;
            put_name(lines, name)?;
            lines.word(":=")?;
            put_port(lines, port)
        }
        Stmt::If(guard, stmts, others) => {
            lines.word("if")?;
            put_guard(lines, guard)?;
            lines.word("then")?;
            put_stmts(lines, stmts)?;
            put_else(lines, others)?;
            lines.word("fi")
        }
        Stmt::For(name, set, asked, stmts) => {
            lines.word("for")?;
            put_selection(lines, name, *set, asked)?;
            lines.word("do")?;
            put_stmts(lines, stmts)?;
            lines.word("od")
        }
    }
}

/// The tokens of statements in a row, a space before each, with `;` between two statements.
#[cycle(statement)]
pub fn put_stmts(lines: &mut Lines, stmts: &[Stmt]) -> Result<(), AllocError>
    ensures { OnOk result (lines.new ≡ lines.old ++ spaced (stmts_words (stmts_of stmts.now))) }
{
    for (place, stmt) in stmts.iter().enumerate() {
        put_between(lines, place, ";")?;
        put_stmt(lines, stmt)?;
    }
    Ok(())
}

/// The statements behind `else`, where there are some.
#[cycle(statement)]
fn put_else(lines: &mut Lines, stmts: &[Stmt]) -> Result<(), AllocError>
    ensures { OnOk result (lines.new ≡ lines.old ++ spaced (else_words (stmts_of stmts.now))) }
{
    if stmts.is_empty() {
        return Ok(());
    }
    lines.word("else")?;
    put_stmts(lines, stmts)
}

/// The tokens of a movement, a space before each: `none` where there is no movement.
pub fn put_move(lines: &mut Lines, moved: &Move) -> Result<(), AllocError>
    ensures { OnOk result (lines.new ≡ lines.old ++ spaced (move_words (move_of moved.now))) }
{
    match moved {
        Move::None => lines.word("none"),
        Move::Expand(port) => {
            lines.word("expand")?;
            put_port(lines, port)
        }
        Move::Contract(end) => {
            lines.word("contract")?;
            lines.word((*end).word())
        }
        Move::Push(port) => {
            lines.word("push")?;
            put_port(lines, port)
        }
        Move::Pull(port) => {
            lines.word("pull")?;
            put_port(lines, port)
        }
    }
}
