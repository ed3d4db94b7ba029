//! The program `erosion`.

ghost use Rattle.std.specs.Prelude.{◌≡◌, ◌∷◌, [], codes, take, map, IfOk};
ghost use Rattle.action_tree.specs.Views.{name_of, guard_of, port_of, term_of, stmt_of, var_of, action_of};
ghost use Rattle.action_tree.specs.declared.expression.PortSet.TheVariants.{Ports};
ghost use Rattle.action_tree.specs.Trees as tree;
ghost use Rattle.action_tree.specs.Shipped as sample;
ghost use Rattle.shipped_programs.specs.Shipped.{run_ends, erode_guard, erode_body};

use crate::build::{
    action, all_three, both, is, not, one_stmt, p, pair, set_to, some_port, triple, turned, var,
};
use action_tree::{Action, Guard, Move, PortExpr, PortSet, Program, Stmt, Term, Var, Word};
use std::alloc::{AllocError, Global};

/// The tree of `erosion`.
pub(crate) fn erosion(alloc: Global) -> Result<Program, AllocError>
    ensures { IfOk result (λ p. p ≡ sample.erosion) }
{
    let (vars, actions) = pair(vars(alloc), actions(alloc))?;
    Ok(Program::make(false, vars, actions))
}

fn vars(alloc: Global) -> Result<Vec<Var>, AllocError>
    ensures { IfOk result (λ vars. map var_of vars.items ≡ sample.erosion.vars) }
{
    Ok(vec![in alloc; var(cand(), 1), var(leader(), 1)]?)
}

fn actions(alloc: Global) -> Result<Vec<Action>, AllocError>
    ensures { IfOk result (λ actions. map action_of actions.items ≡ sample.erosion.actions) }
{
    let (lead, erode) = pair(lead(alloc), erode(alloc))?;
    Ok(vec![in alloc; lead, erode]?)
}

fn cand() -> Word
    ensures { name_of result ≡ sample.example_name (codes "cand") }
{
    Word::new(b"cand", 0)
}

fn leader() -> Word
    ensures { name_of result ≡ sample.example_name (codes "leader") }
{
    Word::new(b"leader", 0)
}

/// `PORT . cand = 1`
fn is_candidate(alloc: Global, port: PortExpr) -> Result<Guard, AllocError>
    ensures { IfOk result (λ g. guard_of g ≡ sample.there_is (port_of port) (codes "cand") 1) }
{
    is(alloc, Term::Of(port, cand()), 1)
}

fn lead(alloc: Global) -> Result<Action, AllocError>
    ensures { IfOk result (λ a. action_of a ∷ [] ≡ take 1 sample.erosion.actions) }
{
    let (body, guard) = pair(lead_body(alloc), lead_guard(alloc))?;
    Ok(action(Word::new(b"lead", 0), guard, body, Move::None))
}

fn lead_body(alloc: Global) -> Result<Vec<Stmt>, AllocError>
    ensures { IfOk result (λ ss.
        map stmt_of ss.items
        ≡ tree.put (sample.example_name (codes "leader")) (sample.sum_of_term (
        tree.number (sample.literal 1))) ∷ []) }
{
    one_stmt(alloc, set_to(alloc, leader(), 1)?)
}

/// `cand = 1 and leader = 0 and not any p in ports ( p . cand = 1 )`
fn lead_guard(alloc: Global) -> Result<Guard, AllocError>
    ensures { IfOk result (λ g.
        guard_of g
        ≡ sample.and (sample.own_is (codes "cand") 1 ∷ sample.own_is (codes "leader") 0
        ∷ tree.negation (sample.some_port (sample.there_is sample.p (codes "cand") 1)) ∷ [])) }
{
    let (candidate, no_leader, alone) = triple(
        is(alloc, Term::Own(cand()), 1),
        is(alloc, Term::Own(leader()), 0),
        no_other(alloc),
    )?;
    all_three(alloc, candidate, no_leader, alone)
}

/// `not any p in ports ( p . cand = 1 )`
fn no_other(alloc: Global) -> Result<Guard, AllocError>
    ensures { IfOk result (λ g.
        guard_of g ≡ tree.negation (sample.some_port (sample.there_is sample.p (codes "cand") 1))) }
{
    let other = is_candidate(alloc, p())?;
    not(alloc, some_port(alloc, other)?)
}

fn erode(alloc: Global) -> Result<Action, AllocError>
    ensures { IfOk result (λ a.
        action_of a ≡ sample.action (codes "erode") erode_guard erode_body tree.no_move) }
{
    let (body, guard) = pair(erode_body(alloc), erode_guard(alloc))?;
    Ok(action(Word::new(b"erode", 0), guard, body, Move::None))
}

fn erode_guard(alloc: Global) -> Result<Guard, AllocError>
    ensures { IfOk result (λ g. guard_of g ≡ erode_guard) }
{
    let ends = ends(alloc)?;
    let (candidate, once) = pair(is(alloc, Term::Own(cand()), 1), is(alloc, ends, 1))?;
    both(alloc, candidate, once)
}

fn erode_body(alloc: Global) -> Result<Vec<Stmt>, AllocError>
    ensures { IfOk result (λ ss. map stmt_of ss.items ≡ erode_body) }
{
    one_stmt(alloc, set_to(alloc, cand(), 0)?)
}

/// `count p in ports ( GUARD )`, for the ends of runs
fn ends(alloc: Global) -> Result<Term, AllocError>
    ensures { IfOk result (λ t. term_of t ≡ tree.count (sample.example_name (codes "p")) Ports run_ends) }
{
    let guard = Box::new(alloc, ends_a_run(alloc)?)?;
    Ok(Term::Count(Word::new(b"p", 0), PortSet::Ports, guard))
}

/// `p . cand = 1 and not ( linked turn p 1 and turn p 1 . cand = 1 )`
fn ends_a_run(alloc: Global) -> Result<Guard, AllocError>
    ensures { IfOk result (λ g. guard_of g ≡ run_ends) }
{
    let follows = candidate_follows(alloc)?;
    let (candidate, last) = pair(is_candidate(alloc, p()), not(alloc, follows))?;
    both(alloc, candidate, last)
}

/// `linked turn p 1 and turn p 1 . cand = 1`
fn candidate_follows(alloc: Global) -> Result<Guard, AllocError>
    ensures { IfOk result (λ g.
        guard_of g
        ≡ sample.and (tree.tested tree.linked (tree.turned sample.p (sample.literal 1))
        ∷ sample.there_is (tree.turned sample.p (sample.literal 1)) (codes "cand") 1 ∷ [])) }
{
    let (linked, next) = pair(turned(alloc, p(), 1), next_is_candidate(alloc))?;
    both(alloc, Guard::Linked(linked), next)
}

/// `turn p 1 . cand = 1`
fn next_is_candidate(alloc: Global) -> Result<Guard, AllocError>
    ensures { IfOk result (λ g.
        guard_of g ≡ sample.there_is (tree.turned sample.p (sample.literal 1)) (codes "cand") 1) }
{
    is_candidate(alloc, turned(alloc, p(), 1)?)
}
