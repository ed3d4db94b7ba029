//! Whether a program is `erosion`, lines and guard aside.

ghost use Rattle.std.specs.Prelude.{◌≡◌, ◌≢◌, Decides, IfSome, IfNone, codes, map};
ghost use Rattle.action_tree.specs.Lines.{bare_action, bare_guard, bare_guards, bare_port, bare_sum};
ghost use Rattle.action_tree.specs.Lines.{bare_stmts, bare_term, bare_var, bare_move};
ghost use Rattle.action_tree.specs.Shipped.{erosion, p, some_port, var as variable};
ghost use Rattle.action_tree.specs.Trees as tree;
ghost use Rattle.action_tree.specs.Views as view;
ghost use Rattle.election_law.specs.Elections.{IsErosion};
ghost use Rattle.election_law.specs.Parts.{asks_cand, cand_of, ends_sum, guard_of_erode, guard_of_lead};
ghost use Rattle.election_law.specs.Parts.{last_cand, lone_guard, next_cand, next_port, one_end, only_put};
ghost use Rattle.election_law.specs.Parts.{putting};

use crate::likeness::{
    is_name, is_named_port, is_number, is_number_sum, is_own_comparison, is_put_number,
    is_turned_port, only_term,
};
use action_tree::{Action, Cmp, Guard, Move, PortExpr, PortSet, Program, Stmt, Sum, Term, Var};

/// Whether the program is `erosion`, lines and guard aside. It takes no memory.
pub fn is_erosion(program: &Program) -> bool
    ensures { Decides result (IsErosion program.now) }
{
    has_vars(program.vars()) && has_actions(program.actions())
}

/// The variables are `cand` and `leader`, of at most 1.
fn has_vars(vars: &[Var]) -> bool
    ensures { Decides result (map bare_var (map view.var_of vars.now) ≡ erosion.vars) }
{
    match vars {
        [cand, leader] => is_var(cand, "cand") && is_var(leader, "leader"),
        _ => false,
    }
}

fn is_var(var: &Var, name: &str) -> bool
    ensures { Decides result (bare_var (view.var_of var.now) ≡ variable name.now 1) }
{
    is_name(&var.name, name) && is_number(&var.max, 1)
}

/// The actions are `lead` and `erode`.
fn has_actions(actions: &[Action]) -> bool
    ensures { Decides result (map bare_action (map view.action_of actions.now) ≡ erosion.actions) }
{
    match actions {
        [lead, erode] => is_lead(lead) && is_erode(erode),
        _ => false,
    }
}

fn is_lead(action: &Action) -> bool
    ensures { Decides result (
        bare_action (view.action_of action.now) ≡ putting (codes "lead") guard_of_lead (codes "leader") 1) }
{
    is_name(&action.name, "lead") && is_lead_guard(&action.guard) && puts(action, "leader", 1)
}

fn is_erode(action: &Action) -> bool
    ensures { Decides result (
        bare_action (view.action_of action.now) ≡ putting (codes "erode") guard_of_erode (codes "cand") 0) }
{
    is_name(&action.name, "erode") && is_erode_guard(&action.guard) && puts(action, "cand", 0)
}

/// The action puts a number into an own variable, and does nothing else.
fn puts(action: &Action, name: &str, value: u32) -> bool
    ensures { Decides result
        ((bare_stmts (view.stmts_of action.now.body.items) ≡ only_put name.now value)
        × (bare_move (view.move_of action.now.moved) ≡ tree.no_move)) }
{
    is_only_put(&action.body, name, value) && is_no_move(&action.moved)
}

fn is_only_put(body: &[Stmt], name: &str, value: u32) -> bool
    ensures { Decides result (bare_stmts (view.stmts_of body.now) ≡ only_put name.now value) }
{
    match body {
        [put] => is_put_number(put, name, value),
        _ => false,
    }
}

fn is_no_move(moved: &Move) -> bool
    ensures { Decides result (bare_move (view.move_of moved.now) ≡ tree.no_move) }
{
    match moved {
        Move::None => true,
        Move::Expand(_) | Move::Contract(_) | Move::Push(_) | Move::Pull(_) => false,
    }
}

fn is_lead_guard(guard: &Guard) -> bool
    ensures { Decides result (bare_guard (view.guard_of guard.now) ≡ guard_of_lead) }
{
    match guard {
        Guard::And(elements) => are_lead_elements(elements),
        _ => false,
    }
}

fn are_lead_elements(elements: &[Guard]) -> bool
    ensures { Decides result (tree.conjunction (bare_guards (view.guards_of elements.now)) ≡ guard_of_lead) }
{
    match elements {
        [cand, leader, lone] => {
            is_own_comparison(cand, "cand", 1)
                && is_own_comparison(leader, "leader", 0)
                && is_lone_guard(lone)
        }
        _ => false,
    }
}

/// `not any p in ports ( p . cand = 1 )`
fn is_lone_guard(guard: &Guard) -> bool
    ensures { Decides result (bare_guard (view.guard_of guard.now) ≡ lone_guard) }
{
    match guard {
        Guard::Not(negated) => is_any_cand(negated),
        _ => false,
    }
}

fn is_any_cand(guard: &Guard) -> bool
    ensures { Decides result (bare_guard (view.guard_of guard.now) ≡ some_port (asks_cand p)) }
{
    match guard {
        Guard::Any(name, PortSet::Ports, asked) => is_name(name, "p") && is_cand_here(asked),
        _ => false,
    }
}

/// `p . cand = 1`
fn is_cand_here(guard: &Guard) -> bool
    ensures { Decides result (bare_guard (view.guard_of guard.now) ≡ asks_cand p) }
{
    match asked_port(guard) {
        Some(port) => is_named_port(port, "p"),
        None => false,
    }
}

/// `turn p 1 . cand = 1`
fn is_cand_next(guard: &Guard) -> bool
    ensures { Decides result (bare_guard (view.guard_of guard.now) ≡ asks_cand next_port) }
{
    match asked_port(guard) {
        Some(port) => is_turned_port(port, "p", 1),
        None => false,
    }
}

/// The port of `PORT . cand = 1`.
fn asked_port(guard: &Guard) -> Option<&PortExpr>
    ensures some { IfSome result (λ port.
        bare_guard (view.guard_of guard.now) ≡ asks_cand (bare_port (view.port_of port.now))) }
    ensures none { IfNone result ((port : tree.PortExpr)
        → bare_guard (view.guard_of guard.now) ≢ asks_cand port) }
{
    match guard {
        Guard::Compare(left, Cmp::Eq, right) if is_number_sum(right, 1) => {
            let term = only_term(left)?;
            cand_port(term)
        }
        _ => None,
    }
}

/// The port of `PORT . cand`.
fn cand_port(term: &Term) -> Option<&PortExpr>
    ensures some { IfSome result (λ port.
        bare_term (view.term_of term.now) ≡ cand_of (bare_port (view.port_of port.now))) }
    ensures none { IfNone result ((port : tree.PortExpr) → bare_term (view.term_of term.now) ≢ cand_of port) }
{
    match term {
        Term::Of(port, name) => {
            if is_name(name, "cand") {
                Some(port)
            } else {
                None
            }
        }
        Term::Number(_) | Term::Own(_) | Term::Count(_, _, _) => None,
        Term::Dir(_) | Term::PeerDir(_) | Term::Inner | Term::Mod6(_) => None,
    }
}

fn is_erode_guard(guard: &Guard) -> bool
    ensures { Decides result (bare_guard (view.guard_of guard.now) ≡ guard_of_erode) }
{
    match guard {
        Guard::And(elements) => are_erode_elements(elements),
        _ => false,
    }
}

fn are_erode_elements(elements: &[Guard]) -> bool
    ensures { Decides result (tree.conjunction (bare_guards (view.guards_of elements.now)) ≡ guard_of_erode) }
{
    match elements {
        [cand, one_end] => is_own_comparison(cand, "cand", 1) && is_one_end(one_end),
        _ => false,
    }
}

/// `count p in ports ( .. ) = 1`
fn is_one_end(guard: &Guard) -> bool
    ensures { Decides result (bare_guard (view.guard_of guard.now) ≡ one_end) }
{
    match guard {
        Guard::Compare(left, Cmp::Eq, right) => is_count_of_ends(left) && is_number_sum(right, 1),
        _ => false,
    }
}

fn is_count_of_ends(sum: &Sum) -> bool
    ensures { Decides result (bare_sum (view.sum_of sum.now) ≡ ends_sum) }
{
    match only_term(sum) {
        Some(Term::Count(name, PortSet::Ports, asked)) => is_name(name, "p") && is_last_cand(asked),
        _ => false,
    }
}

/// `p . cand = 1 and not ( linked turn p 1 and turn p 1 . cand = 1 )`
fn is_last_cand(guard: &Guard) -> bool
    ensures { Decides result (bare_guard (view.guard_of guard.now) ≡ last_cand) }
{
    match guard {
        Guard::And(elements) => are_last_elements(elements),
        _ => false,
    }
}

fn are_last_elements(elements: &[Guard]) -> bool
    ensures { Decides result (tree.conjunction (bare_guards (view.guards_of elements.now)) ≡ last_cand) }
{
    match elements {
        [here, not_next] => is_cand_here(here) && is_not_next(not_next),
        _ => false,
    }
}

fn is_not_next(guard: &Guard) -> bool
    ensures { Decides result (bare_guard (view.guard_of guard.now) ≡ tree.negation next_cand) }
{
    match guard {
        Guard::Not(negated) => is_next_cand(negated),
        _ => false,
    }
}

fn is_next_cand(guard: &Guard) -> bool
    ensures { Decides result (bare_guard (view.guard_of guard.now) ≡ next_cand) }
{
    match guard {
        Guard::And(elements) => are_next_elements(elements),
        _ => false,
    }
}

fn are_next_elements(elements: &[Guard]) -> bool
    ensures { Decides result (tree.conjunction (bare_guards (view.guards_of elements.now)) ≡ next_cand) }
{
    match elements {
        [linked, cand] => is_next_linked(linked) && is_cand_next(cand),
        _ => false,
    }
}

fn is_next_linked(guard: &Guard) -> bool
    ensures { Decides result (bare_guard (view.guard_of guard.now) ≡ tree.tested tree.linked next_port) }
{
    match guard {
        Guard::Linked(port) => is_turned_port(port, "p", 1),
        _ => false,
    }
}
