//! What statements and movements do to a working copy.

ghost use Rattle.std.specs.Prelude.{◌≡◌, true, IfOk, IfErr, Ok, Err};
ghost use Rattle.action_tree.specs.Places.{is_at_place, sum_placed, stmt_placed, stmts_placed, move_placed};
ghost use Rattle.action_tree.specs.{Writable.{is_sum, is_stmt, are_stmts, is_move}, Scopes.{scope_after_all}};
ghost use Rattle.action_tree.specs.Views as view;
ghost use Rattle.action_check.specs.Rules.{IsVariable, SumKept, StmtKept, StmtsKept, MoveKept};
ghost use Rattle.model_ops.specs.{Reaches.{Reaches, move}, Sites.{done}};
ghost use Rattle.model_ops.specs.WorkingCopies.{opened, own_id, copy_after};
ghost use Rattle.amoebot_state.specs.Zones.{IsShown, shown_alone};
ghost use Rattle.action_meaning.specs.Effects.{stmt_effect, stmts_effect, for_ports};
ghost use Rattle.action_meaning.specs.Verdicts.{move_value as spec_move_value, action_effect};
ghost use Rattle.action_meaning.specs.Values as spec;
ghost use Rattle.action_eval.specs.Known.{known, scope_of, sight_of};
ghost use Rattle.action_eval.specs.Running.{HasRun, moment_of, put_reached, turn_effect};
ghost use Rattle.action_eval.specs.UnderNames.{MayAsk, MayRunUnder};

use crate::names::Names;
use crate::port::ports_of;
use crate::value::{guard_value, port_value, sum_value};
use action_tree::{Action, Guard, Move, PortSet, Stmt, Sum, Word};
use amoebot_state::{Failure, Moved, Port};
use model_ops::Site;

/// Gives a variable the value of a sum: the amoebot's own, or that of the neighbour behind a port.
/// The failure of the sum comes before those of the write.
fn put<'p>(
    port: Option<Port>,
    name: &'p Word,
    sum: &'p Sum,
    site: &mut Site<'_>,
    names: &Names<'p>,
) -> Result<(), Failure>
    requires var { IsVariable (scope_of (known names.now)) (view.name_of name.now) }
    requires var_placed { is_at_place (scope_of (known names.now)).vars name.now ≡ true }
    requires kept { SumKept (scope_of (known names.now)) (view.sum_of sum.now) }
    requires placed { sum_placed sum.now (scope_of (known names.now)) ≡ true }
    requires counted { is_sum (view.sum_of sum.now) ≡ true }
    ensures value { result ≡ done
        (put_reached site.old (known names.now) port (view.name_of name.now) (view.sum_of sum.now)) }
    ensures after { site.new ≡ copy_after site.old
        (put_reached site.old (known names.now) port (view.name_of name.now) (view.sum_of sum.now)) }
{
    let value = sum_value(sum, site, names)?;
    site.write(port, names.var_number(name), value)
}

/// A statement. The names in force behind it are given back.
#[cycle(effects)]
fn run_stmt<'p>(stmt: &'p Stmt, site: &mut Site<'_>, names: Names<'p>) -> Result<Names<'p>, Failure>
    requires kept { StmtKept (scope_of (known names)) (view.stmt_of stmt.now) }
    requires placed { stmt_placed stmt.now (scope_of (known names)) ≡ true }
    requires counted { is_stmt (view.stmt_of stmt.now) ≡ true }
    ensures { HasRun
        (stmt_effect (own_id site.old) (view.stmt_of stmt.now) (moment_of site.old (known names.entry)))
        known result site.old site.new }
{
    match stmt {
        Stmt::Put(name, sum) => {
            put(None, name, sum, site, &names)?;
            Ok(names)
        }
        Stmt::PutOf(port, name, sum) => {
            let port = port_value(port, site, &names)?;
            put(Some(port), name, sum, site, &names)?;
            Ok(names)
        }
        Stmt::Let(name, port) => {
            let port = port_value(port, site, &names)?;
            Ok(names.bind(name, port))
        }
        Stmt::If(guard, yes, no) => {
            if guard_value(guard, site, &names)? {
                run_stmts(yes, site, names.copy())?;
            } else {
                run_stmts(no, site, names.copy())?;
            }
            Ok(names)
        }
        Stmt::For(name, set, guard, stmts) => {
            run_for(name, *set, stmts, guard, site, &names)?;
            Ok(names)
        }
    }
}

/// Statements, one after the other. The names in force behind them are given back.
#[cycle(effects)]
fn run_stmts<'p>(
    stmts: &'p [Stmt],
    site: &mut Site<'_>,
    mut names: Names<'p>,
) -> Result<Names<'p>, Failure>
    requires kept { StmtsKept (scope_of (known names)) (view.stmts_of stmts.now) }
    requires placed { stmts_placed stmts.now (scope_of (known names)) ≡ true }
    requires counted { are_stmts (view.stmts_of stmts.now) ≡ true }
    ensures { HasRun
        (stmts_effect (own_id site.old) (view.stmts_of stmts.now) (moment_of site.old (known names.entry)))
        known result site.old site.new }
{
    for stmt in stmts {
        names = run_stmt(stmt, site, names)?;
    }
    Ok(names)
}

/// `for`: the ports of a set, one after the other. Which ports these are is settled at the start.
#[cycle(effects)]
fn run_for<'p>(
    name: &'p Word,
    set: PortSet,
    stmts: &'p [Stmt],
    guard: &'p Guard,
    site: &mut Site<'_>,
    names: &Names<'p>,
) -> Result<(), Failure>
    requires asked { MayAsk (known names.now) name.now guard.now }
    requires run { MayRunUnder (known names.now) name.now stmts.now }
    ensures { HasRun (for_ports
        (turn_effect (own_id site.old) (view.name_of name.now)
        (view.guard_of guard.now) (view.stmts_of stmts.now))
        (spec.ports_of (sight_of site.old) set) (moment_of site.old (known names.now)))
        (λ _. known names.now) result site.old site.new }
{
    let ports = ports_of(set, site);
    for port in ports.iter() {
        run_turn(name, *port, stmts, guard, site, names)?;
    }
    Ok(())
}

/// `for` at one port: where the guard is true in what was reached so far, the statements run.
#[cycle(effects)]
fn run_turn<'p>(
    name: &'p Word,
    port: Port,
    stmts: &'p [Stmt],
    guard: &'p Guard,
    site: &mut Site<'_>,
    names: &Names<'p>,
) -> Result<(), Failure>
    requires asked { MayAsk (known names.now) name.now guard.now }
    requires run { MayRunUnder (known names.now) name.now stmts.now }
    ensures { HasRun
        (turn_effect (own_id site.old) (view.name_of name.now)
        (view.guard_of guard.now) (view.stmts_of stmts.now)
        port (moment_of site.old (known names.now)))
        (λ _. known names.now) result site.old site.new }
{
    let inner = names.bind(name, port);
    if guard_value(guard, site, &inner)? {
        run_stmts(stmts, site, inner)?;
    }
    Ok(())
}

/// The movement that an action names, with its port as evaluated.
fn move_value<'p>(moved: &'p Move, site: &Site<'_>, names: &Names<'p>) -> Result<Moved, Failure>
    requires kept { MoveKept (scope_of (known names.now)) (view.move_of moved.now) }
    requires placed { move_placed moved.now (scope_of (known names.now)) ≡ true }
    requires counted { is_move (view.move_of moved.now) ≡ true }
    ensures { result ≡ spec_move_value (sight_of site.now) (known names.now) (view.move_of moved.now) }
{
    match moved {
        Move::None => Ok(Moved::None),
        Move::Expand(port) => {
            let port = port_value(port, site, names)?;
            Ok(Moved::Expand(port))
        }
        Move::Contract(end) => Ok(Moved::Contract(*end)),
        Move::Push(port) => {
            let port = port_value(port, site, names)?;
            Ok(Moved::Push(port))
        }
        Move::Pull(port) => {
            let port = port_value(port, site, names)?;
            Ok(Moved::Pull(port))
        }
    }
}

/// Makes a movement. With the guard on, it leaves no node that is not surrounded by one arc.
fn make_move(moved: Moved, guard: bool, site: &mut Site<'_>) -> Result<(), Failure>
    ensures value { result ≡ done (move site.old.reached (own_id site.old) guard moved) }
    ensures after { site.new ≡ copy_after site.old (move site.old.reached (own_id site.old) guard moved) }
{
    match moved {
        Moved::None => Ok(()),
        Moved::Expand(port) => site.expand(port),
        Moved::Contract(end) => site.contract(end, guard),
        Moved::Push(port) => site.push(port),
        Moved::Pull(port) => site.pull(port),
    }
}

/// The statements of an action, and then its movement, in which what they bound is in force.
/// The movement that was made is given back.
pub fn run_action<'p>(
    action: &'p Action,
    guard: bool,
    site: &mut Site<'_>,
    names: Names<'p>,
) -> Result<Moved, Failure>
    requires body { StmtsKept (scope_of (known names)) (view.stmts_of action.now.body.items) }
    requires body_counted { are_stmts (view.stmts_of action.now.body.items) ≡ true }
    requires moved { MoveKept (scope_after_all (scope_of (known names)) (view.stmts_of action.now.body.items))
        (view.move_of action.now.moved) }
    requires moved_counted { is_move (view.move_of action.now.moved) ≡ true }
    requires body_placed { stmts_placed action.now.body.items (scope_of (known names)) ≡ true }
    requires moved_placed { move_placed action.now.moved
        (scope_after_all (scope_of (known names)) (view.stmts_of action.now.body.items)) ≡ true }
    requires shown { IsShown site.old.found }
    requires opened { site.old ≡ opened site.old.found }
    ensures made { IfOk result (λ moved.
        action_effect guard (own_id site.old) (view.action_of action.now)
        (moment_of site.old (known names.entry))
        ≡ Ok (record { moved = moved; reached = site.new.reached })) }
    ensures found { IfOk result (λ _. site.new.found ≡ site.old.found) }
    ensures reaches { IfOk result (λ _.
        Reaches (shown_alone site.new.found) (own_id site.new) site.new.reached) }
    ensures failed { IfErr result (λ f.
        action_effect guard (own_id site.old) (view.action_of action.now)
        (moment_of site.old (known names.entry))
        ≡ Err f) }
{
    let names = run_stmts(&action.body, site, names)?;
    let moved = move_value(&action.moved, site, &names)?;
    make_move(moved, guard, site)?;
    Ok(moved)
}
