//! The program `line`.

ghost use Rattle.std.specs.Prelude.{◌≡◌, map, IfOk};
ghost use Rattle.action_tree.specs.Views.{port_of, action_of};
ghost use Rattle.action_tree.specs.Shipped as sample;

use crate::build::{action, both, literal};
use action_tree::{Action, DirTerm, Guard, Move, PortExpr, Program, Word};
use amoebot_state::End;
use std::alloc::{AllocError, Global};

/// The tree of `line`.
pub(crate) fn line(alloc: Global) -> Result<Program, AllocError>
    ensures { IfOk result (λ p. p ≡ sample.line) }
{
    Ok(Program::make(false, Vec::new(alloc), actions(alloc)?))
}

fn actions(alloc: Global) -> Result<Vec<Action>, AllocError>
    ensures { IfOk result (λ actions. map action_of actions.items ≡ sample.line.actions) }
{
    let guard = both(alloc, Guard::Contracted, Guard::Free(head_0()))?;
    Ok(vec![in alloc;
        action(
            Word::new(b"out", 0),
            guard,
            Vec::new(alloc),
            Move::Expand(head_0())
        ),
        action(
            Word::new(b"follow_up", 0),
            Guard::Expanded,
            Vec::new(alloc),
            Move::Contract(End::Tail)
        ),
    ]?)
}

fn head_0() -> PortExpr
    ensures { port_of result ≡ sample.head_0 }
{
    PortExpr::At(End::Head, DirTerm::Number(literal(0)))
}
