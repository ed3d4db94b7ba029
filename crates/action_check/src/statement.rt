//! The rules on statements, movements and actions.

ghost use Rattle.std.specs.Prelude.{◌≡◌, Ok, Err, IfOk, IfErr};
ghost use Rattle.action_tree.specs.Writable.{with_let, stmt_names, stmts_names, move_names, action_names};
ghost use Rattle.action_tree.specs.Scopes.{HasRoom, scope_after, scope_after_all};
ghost use Rattle.action_tree.specs.Views as view;
ghost use Rattle.action_check.specs.Told.{first_of, known_scope};
ghost use Rattle.action_check.specs.Faults as spec;

use crate::expression::{check_guard, check_inside, check_port, check_sum};
use crate::scope::Scope;
use action_tree::{Action, Move, Stmt};
use text_tokens::Refusal;

/// What is known behind a statement.
fn behind_stmt<'a>(stmt: &Stmt, scope: Scope<'a>) -> Scope<'a>
    requires { HasRoom (known_scope scope) (with_let (view.stmt_of stmt.now) 0) }
    ensures { known_scope result ≡ scope_after (known_scope scope.entry) (view.stmt_of stmt.now) }
{
    match stmt {
        Stmt::Let(name, _) => scope.bind(name),
        Stmt::Put(_, _) | Stmt::PutOf(_, _, _) | Stmt::If(_, _, _) | Stmt::For(_, _, _, _) => scope,
    }
}

#[tactic(auto, using(crate::proofs::Firsts::first_behind, crate::proofs::Firsts::first_before))]
#[cycle(statements)]
fn check_stmt(stmt: &Stmt, scope: &Scope<'_>) -> Result<(), Refusal>
    requires { HasRoom (known_scope scope.now) (stmt_names (view.stmt_of stmt.now)) }
    ensures { result ≡ first_of (spec.stmt_faults (known_scope scope.now) (view.stmt_of stmt.now)) }
{
    match stmt {
        Stmt::Put(name, sum) => {
            scope.variable(name)?;
            check_sum(sum, scope)
        }
        Stmt::PutOf(port, name, sum) => {
            check_port(port, scope)?;
            scope.variable(name)?;
            check_sum(sum, scope)
        }
        Stmt::Let(name, port) => {
            scope.new_name(name)?;
            check_port(port, scope)
        }
        Stmt::If(guard, yes, no) => {
            check_guard(guard, scope)?;
            check_stmts(yes, scope.copy())?;
            check_stmts(no, scope.copy())?;
            Ok(())
        }
        Stmt::For(name, _, guard, stmts) => {
            check_inside(name, guard, scope)?;
            check_stmts(stmts, scope.bind(name))?;
            Ok(())
        }
    }
}

/// Statements in a row. What is known behind them is given back.
#[tactic(auto, using(crate::proofs::Firsts::first_behind, crate::proofs::Firsts::first_before))]
#[cycle(statements)]
fn check_stmts<'a>(stmts: &[Stmt], mut scope: Scope<'a>) -> Result<Scope<'a>, Refusal>
    requires { HasRoom (known_scope scope) (stmts_names 0 (view.stmts_of stmts.now)) }
    ensures fine { IfOk result (λ _.
        first_of (spec.stmts_faults (known_scope scope.entry) (view.stmts_of stmts.now)) ≡ Ok tt) }
    ensures behind { IfOk result (λ sc.
        known_scope sc ≡ scope_after_all (known_scope scope.entry) (view.stmts_of stmts.now)) }
    ensures wrong { IfErr result (λ r.
        first_of (spec.stmts_faults (known_scope scope.entry) (view.stmts_of stmts.now)) ≡ Err r) }
{
    for stmt in stmts {
        check_stmt(stmt, &scope)?;
        scope = behind_stmt(stmt, scope);
    }
    Ok(scope)
}

fn check_move(moved: &Move, scope: &Scope<'_>) -> Result<(), Refusal>
    requires { HasRoom (known_scope scope.now) (move_names (view.move_of moved.now)) }
    ensures { result ≡ first_of (spec.move_faults (known_scope scope.now) (view.move_of moved.now)) }
{
    match moved {
        Move::None | Move::Contract(_) => Ok(()),
        Move::Expand(port) | Move::Push(port) | Move::Pull(port) => check_port(port, scope),
    }
}

/// What stands behind the name of an action.
#[tactic(auto, using(crate::proofs::Firsts::first_behind, crate::proofs::Firsts::first_before))]
pub fn check_action(action: &Action, scope: Scope<'_>) -> Result<(), Refusal>
    requires { HasRoom (known_scope scope) (action_names (view.action_of action.now)) }
    ensures { result ≡ first_of (spec.action_faults (known_scope scope.entry) (view.action_of action.now)) }
{
    check_guard(&action.guard, &scope)?;
    let behind = check_stmts(&action.body, scope)?;
    check_move(&action.moved, &behind)
}
