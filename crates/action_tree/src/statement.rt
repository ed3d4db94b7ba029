//! Statements, and the movement behind them.

use crate::expression::{Guard, PortExpr, PortSet, Sum};
use crate::word::Word;
use amoebot_state::End;

/// A statement. The third part of an `If` without `else` is empty.
#[derive(Drop)]
pub enum Stmt {
    Put(Word, Sum),
    PutOf(PortExpr, Word, Sum),
    Let(Word, PortExpr),
    If(Guard, Vec<Stmt>, Vec<Stmt>),
    For(Word, PortSet, Guard, Vec<Stmt>),
}

/// A movement, or none.
#[derive(Drop)]
pub enum Move {
    None,
    Expand(PortExpr),
    Contract(End),
    Push(PortExpr),
    Pull(PortExpr),
}
