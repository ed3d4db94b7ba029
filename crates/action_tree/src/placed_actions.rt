//! The place of each name of the actions of a program.

ghost use Rattle.std.specs.{Prelude.{◌≡◌, ◌≤◌, [], true, map, length}, List.{list_all}};
ghost use Rattle.amoebot_state.specs.Limits.{most_vars};
ghost use Rattle.action_tree.specs.PlacedScope.{placed_scope};
ghost use Rattle.action_tree.specs.Scopes.{HasRoom, names_of_vars, scope_after, scope_after_all};
ghost use Rattle.action_tree.specs.Writable.{with_let, stmt_names, stmts_names, move_names, action_names};
ghost use Rattle.action_tree.specs.Writable.{is_action};
ghost use Rattle.action_tree.specs.Views as view;
ghost use Rattle.action_tree.specs.Places as spec;

use crate::expression::Guard;
use crate::places::{no_port, placed_guard, placed_port, placed_sum, placed_var};
use crate::program::{Action, Var};
use crate::scope::Scope;
use crate::statement::{Move, Stmt};
use crate::word::{NO_PLACE, NameText, Word};
use std::mem;

/// What is known behind a statement.
fn behind_stmt<'v>(stmt: &Stmt, scope: Scope<'v>) -> Scope<'v>
    requires { HasRoom (placed_scope scope) (with_let (view.stmt_of stmt.now) 0) }
    ensures { placed_scope result ≡ scope_after (placed_scope scope.entry) (view.stmt_of stmt.now) }
{
    match stmt {
        Stmt::Let(name, _) => scope.bind(name),
        Stmt::Put(_, _) | Stmt::PutOf(_, _, _) | Stmt::If(_, _, _) | Stmt::For(_, _, _, _) => scope,
    }
}

#[cycle(placed_statements)]
fn placed_stmt(stmt: Stmt, scope: &Scope<'_>) -> Stmt
    requires { HasRoom (placed_scope scope.now) (stmt_names (view.stmt_of stmt)) }
    ensures same { view.stmt_of result ≡ view.stmt_of stmt }
    ensures placed { spec.stmt_placed result (placed_scope scope.now) ≡ true }
{
    match stmt {
        Stmt::Put(name, sum) => Stmt::Put(placed_var(name, scope), placed_sum(sum, scope)),
        Stmt::PutOf(port, name, sum) => {
            let port = placed_port(port, scope);
            Stmt::PutOf(port, placed_var(name, scope), placed_sum(sum, scope))
        }
        Stmt::Let(name, port) => Stmt::Let(name, placed_port(port, scope)),
        Stmt::If(guard, mut yes, mut no) => {
            let guard = placed_guard(guard, scope);
            place_stmts(&mut yes, scope.copy());
            place_stmts(&mut no, scope.copy());
            Stmt::If(guard, yes, no)
        }
        Stmt::For(name, set, guard, mut stmts) => {
            let inner = scope.bind(&name);
            let guard = placed_guard(guard, &inner);
            place_stmts(&mut stmts, inner);
            Stmt::For(name, set, guard, stmts)
        }
    }
}

/// Gives the names of statements in a row their places. What is known behind them is given back.
#[cycle(placed_statements)]
fn place_stmts<'v>(stmts: &mut [Stmt], mut scope: Scope<'v>) -> Scope<'v>
    requires { HasRoom (placed_scope scope) (stmts_names 0 (view.stmts_of stmts.old)) }
    ensures same { view.stmts_of stmts.new ≡ view.stmts_of stmts.old }
    ensures placed { spec.stmts_placed stmts.new (placed_scope scope.entry) ≡ true }
    ensures behind { placed_scope result
        ≡ scope_after_all (placed_scope scope.entry) (view.stmts_of stmts.old) }
{
    for stmt in stmts.iter_mut() {
        let bare = mem::replace(stmt, no_stmt());
        drop(mem::replace(stmt, placed_stmt(bare, &scope)));
        scope = behind_stmt(stmt, scope);
    }
    scope
}

/// What stands for a statement while it is given its places.
fn no_stmt() -> Stmt {
    let name = Word {
        text: NameText::new(),
        line: 0,
        place: NO_PLACE,
    };
    Stmt::Let(name, no_port())
}

fn placed_move(moved: Move, scope: &Scope<'_>) -> Move
    requires { HasRoom (placed_scope scope.now) (move_names (view.move_of moved)) }
    ensures same { view.move_of result ≡ view.move_of moved }
    ensures placed { spec.move_placed result (placed_scope scope.now) ≡ true }
{
    match moved {
        Move::None => Move::None,
        Move::Expand(port) => Move::Expand(placed_port(port, scope)),
        Move::Contract(end) => Move::Contract(end),
        Move::Push(port) => Move::Push(placed_port(port, scope)),
        Move::Pull(port) => Move::Pull(placed_port(port, scope)),
    }
}

/// Gives the names of an action their places.
fn place_action(action: &mut Action, scope: Scope<'_>)
    requires { HasRoom (placed_scope scope) (action_names (view.action_of action.old)) }
    ensures same { view.action_of action.new ≡ view.action_of action.old }
    ensures placed { spec.action_placed action.new (placed_scope scope.entry) ≡ true }
{
    let guard = mem::replace(&mut action.guard, Guard::True);
    action.guard = placed_guard(guard, &scope);
    let behind = place_stmts(&mut action.body, scope);
    let moved = mem::replace(&mut action.moved, Move::None);
    action.moved = placed_move(moved, &behind);
}

/// Gives the names of the actions of a program with these variables their places.
pub fn place_actions(actions: &mut [Action], vars: &[Var])
    requires few { length vars.now ≤ most_vars }
    requires counted { list_all is_action (map view.action_of actions.old) ≡ true }
    ensures same { map view.action_of actions.new ≡ map view.action_of actions.old }
    ensures placed { spec.actions_placed actions.new
        (record { vars = names_of_vars (map view.var_of vars.now); bound = [] }) ≡ true }
{
    for action in actions.iter_mut() {
        place_action(action, Scope::new(vars));
    }
}
