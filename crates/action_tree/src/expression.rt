//! Guards, sums and ports. They contain each other.

use crate::word::{Lit, Word};
use amoebot_state::End;

/// A set of ports that a name goes through, in port order.
#[derive(Clone, Copy, Debug, PartialEq, Eq)]
pub enum PortSet {
    /// Those with a neighbour behind.
    Ports,
    /// Those whose node behind lies in the area and is empty.
    Free,
}

/// How two sums are compared: `=`, `!=`, `<`, `<=`, `>`, `>=`.
#[derive(Clone, Copy, Debug, PartialEq, Eq)]
pub enum Cmp {
    Eq,
    Ne,
    Lt,
    Le,
    Gt,
    Ge,
}

/// What is true or false of an amoebot and what it is shown.
/// `And` and `Or` have at least two elements.
#[cycle(tree)]
#[derive(Drop)]
pub enum Guard {
    True,
    False,
    Contracted,
    Expanded,
    Not(Box<Guard>),
    And(Vec<Guard>),
    Or(Vec<Guard>),
    Any(Word, PortSet, Box<Guard>),
    All(Word, PortSet, Box<Guard>),
    Linked(PortExpr),
    Free(PortExpr),
    AtHead(PortExpr),
    PeerExpanded(PortExpr),
    PeerHead(PortExpr),
    Compare(Sum, Cmp, Sum),
}

/// The sum of its parts, of which there is at least one.
#[cycle(tree)]
#[derive(Drop)]
pub struct Sum {
    pub parts: Vec<Part>,
}

/// A term, with a minus or without.
#[cycle(tree)]
#[derive(Drop)]
pub struct Part {
    pub minus: bool,
    pub term: Term,
}

/// A part of a sum, without its sign.
#[cycle(tree)]
#[derive(Drop)]
pub enum Term {
    Number(Lit),
    Own(Word),
    Of(PortExpr, Word),
    Count(Word, PortSet, Box<Guard>),
    Dir(PortExpr),
    PeerDir(PortExpr),
    Inner,
    Mod6(Sum),
}

/// A local direction: a number, or the value of an own variable.
#[derive(Clone, Copy)]
pub enum DirTerm {
    Number(Lit),
    Own(Word),
}

/// A pair of an end and a local direction.
#[cycle(tree)]
#[derive(Drop)]
pub enum PortExpr {
    Name(Word),
    At(End, DirTerm),
    Turn(Box<PortExpr>, Lit),
    First(Word, PortSet, Box<Guard>),
}
