//! The program `hexagon`. Its variable `state` is 0 idle, 1 seed, 2 follower, 3 root, 4 retired.

ghost use Rattle.std.specs.Prelude.{◌≡◌, ◌∷◌, [], codes, map, IfOk};
ghost use Rattle.action_tree.specs.Views.{name_of, guard_of, port_of, term_of, part_of, sum_of, stmt_of};
ghost use Rattle.action_tree.specs.Views.{var_of, action_of};
ghost use Rattle.action_tree.specs.Trees as tree;
ghost use Rattle.action_tree.specs.Shipped as sample;
ghost use Rattle.amoebot_state.specs.declared.bot.End.TheVariants.{Tail};
ghost use Rattle.shipped_programs.specs.Shipped.{root_guard, root_body, follow_guard, follow_body};
ghost use Rattle.shipped_programs.specs.Shipped.{retire_guard, retire_body, aimed_at, last_retired};
ghost use Rattle.shipped_programs.specs.Shipped.{next_is_still, go_guard, room, drag_guard, drag_body};
ghost use Rattle.shipped_programs.specs.Shipped.{tail_follower, follower_turned, rest_guard, waits};
ghost use Rattle.shipped_programs.specs.Shipped.{head_follower};

use crate::build::{
    action, all_four, all_three, both, either, first_port, is, literal, not, number, one, p, pair,
    q, some_port, three_stmts, triple, turned, two_stmts, var,
};
use action_tree::{Action, Cmp, Guard, Move, Part, PortExpr, Program, Stmt, Sum, Term, Var, Word};
use amoebot_state::End;
use std::alloc::{AllocError, Global};

/// The tree of `hexagon`.
pub(crate) fn hexagon(alloc: Global) -> Result<Program, AllocError>
    ensures { IfOk result (λ p. p ≡ sample.hexagon) }
{
    let (vars, actions) = pair(vars(alloc), actions(alloc))?;
    Ok(Program::make(false, vars, actions))
}

fn vars(alloc: Global) -> Result<Vec<Var>, AllocError>
    ensures { IfOk result (λ vars. map var_of vars.items ≡ sample.hexagon.vars) }
{
    Ok(vec![in alloc; var(state(), 4), var(parent(), 6), var(aim(), 6)]?)
}

fn actions(alloc: Global) -> Result<Vec<Action>, AllocError>
    ensures { IfOk result (λ actions. map action_of actions.items ≡ sample.hexagon.actions) }
{
    Ok(vec![in alloc;
        root(alloc)?,
        follow(alloc)?,
        retire(alloc)?,
        go(alloc)?,
        drag(alloc)?,
        rest(alloc)?,
    ]?)
}

fn state() -> Word
    ensures { name_of result ≡ sample.example_name (codes "state") }
{
    Word::new(b"state", 0)
}

fn parent() -> Word
    ensures { name_of result ≡ sample.example_name (codes "parent") }
{
    Word::new(b"parent", 0)
}

fn aim() -> Word
    ensures { name_of result ≡ sample.example_name (codes "aim") }
{
    Word::new(b"aim", 0)
}

/// `PORT . state = NUMBER`
fn state_is(alloc: Global, port: PortExpr, value: u32) -> Result<Guard, AllocError>
    ensures { IfOk result (λ g. guard_of g ≡ sample.there_is (port_of port) (codes "state") value) }
{
    is(alloc, Term::Of(port, state()), value)
}

/// `p . state = NUMBER or p . state = NUMBER`
fn p_is(alloc: Global, one: u32, two: u32) -> Result<Guard, AllocError>
    ensures { IfOk result (λ g.
        guard_of g
        ≡ sample.or (sample.there_is sample.p (codes "state") one
        ∷ sample.there_is sample.p (codes "state") two ∷ [])) }
{
    let (one, two) = pair(state_is(alloc, p(), one), state_is(alloc, p(), two))?;
    either(alloc, one, two)
}

/// `any p in ports ( p . state = NUMBER or p . state = NUMBER )`
fn some_p_is(alloc: Global, one: u32, two: u32) -> Result<Guard, AllocError>
    ensures { IfOk result (λ g.
        guard_of g
        ≡ sample.some_port (sample.or (sample.there_is sample.p (codes "state") one
        ∷ sample.there_is sample.p (codes "state") two ∷ []))) }
{
    some_port(alloc, p_is(alloc, one, two)?)
}

/// `state = NUMBER`
fn own_state_is(alloc: Global, value: u32) -> Result<Guard, AllocError>
    ensures { IfOk result (λ g. guard_of g ≡ sample.own_is (codes "state") value) }
{
    is(alloc, Term::Own(state()), value)
}

/// `state = NUMBER or state = NUMBER`
fn in_state(alloc: Global, one: u32, two: u32) -> Result<Guard, AllocError>
    ensures { IfOk result (λ g.
        guard_of g ≡ sample.or (sample.own_is (codes "state") one ∷ sample.own_is (codes "state") two ∷ [])) }
{
    let (one, two) = pair(own_state_is(alloc, one), own_state_is(alloc, two))?;
    either(alloc, one, two)
}

/// `p . NAME = peer_dir p`
fn points_here(alloc: Global, name: Word) -> Result<Guard, AllocError>
    ensures { IfOk result (λ g.
        guard_of g ≡ sample.equals (tree.of_port sample.p (name_of name))
        (tree.direction tree.peer_side sample.p)) }
{
    let (told, here) = pair(
        one(alloc, Term::Of(p(), name)),
        one(alloc, Term::PeerDir(p())),
    )?;
    Ok(Guard::Compare(told, Cmp::Eq, here))
}

fn root(alloc: Global) -> Result<Action, AllocError>
    ensures { IfOk result (λ a.
        action_of a ≡ sample.action (codes "root") root_guard root_body tree.no_move) }
{
    let (body, guard) = pair(root_body(alloc), root_guard(alloc))?;
    Ok(action(Word::new(b"root", 0), guard, body, Move::None))
}

fn root_guard(alloc: Global) -> Result<Guard, AllocError>
    ensures { IfOk result (λ g. guard_of g ≡ root_guard) }
{
    let (waiting, beside) = pair(in_state(alloc, 0, 2), some_p_is(alloc, 1, 4))?;
    all_three(alloc, Guard::Contracted, waiting, beside)
}

fn root_body(alloc: Global) -> Result<Vec<Stmt>, AllocError>
    ensures { IfOk result (λ ss. map stmt_of ss.items ≡ root_body) }
{
    let (no_port, root) = pair(number(alloc, 6), number(alloc, 3))?;
    two_stmts(
        alloc,
        Stmt::Put(parent(), no_port),
        Stmt::Put(state(), root),
    )
}

fn follow(alloc: Global) -> Result<Action, AllocError>
    ensures { IfOk result (λ a.
        action_of a ≡ sample.action (codes "follow") follow_guard follow_body tree.no_move) }
{
    let (body, guard) = pair(follow_body(alloc), follow_guard(alloc))?;
    Ok(action(Word::new(b"follow", 0), guard, body, Move::None))
}

fn follow_guard(alloc: Global) -> Result<Guard, AllocError>
    ensures { IfOk result (λ g. guard_of g ≡ follow_guard) }
{
    let (idle, beside) = pair(own_state_is(alloc, 0), some_p_is(alloc, 2, 3))?;
    all_three(alloc, Guard::Contracted, idle, beside)
}

fn follow_body(alloc: Global) -> Result<Vec<Stmt>, AllocError>
    ensures { IfOk result (λ ss. map stmt_of ss.items ≡ follow_body) }
{
    let_and_put(alloc, p_is(alloc, 2, 3)?, parent(), Term::Dir(q()), 2)
}

/// `let q := first p in ports ( GUARD ) ; NAME := TERM ; state := NUMBER`
fn let_and_put(
    alloc: Global,
    guard: Guard,
    name: Word,
    term: Term,
    next: u32,
) -> Result<Vec<Stmt>, AllocError>
    ensures { IfOk result (λ ss.
        map stmt_of ss.items
        ≡ tree.let_be (sample.example_name (codes "q")) (sample.first_port (guard_of guard))
        ∷ tree.put (name_of name) (sample.sum_of_term (term_of term))
        ∷ tree.put (sample.example_name (codes "state")) (sample.sum_of_term (
        tree.number (sample.literal next))) ∷ []) }
{
    let (port, value, next) = triple(
        first_port(alloc, guard),
        one(alloc, term),
        number(alloc, next),
    )?;
    three_stmts(
        alloc,
        Stmt::Let(Word::new(b"q", 0), port),
        Stmt::Put(name, value),
        Stmt::Put(state(), next),
    )
}

/// `let q := first p in ports ( GUARD )`
fn let_q(alloc: Global, guard: Guard) -> Result<Stmt, AllocError>
    ensures { IfOk result (λ s.
        stmt_of s ≡ tree.let_be (sample.example_name (codes "q")) (sample.first_port (guard_of guard))) }
{
    Ok(Stmt::Let(Word::new(b"q", 0), first_port(alloc, guard)?))
}

fn retire(alloc: Global) -> Result<Action, AllocError>
    ensures { IfOk result (λ a.
        action_of a ≡ sample.action (codes "retire") retire_guard retire_body tree.no_move) }
{
    let (body, guard) = pair(retire_body(alloc), retire_guard(alloc))?;
    Ok(action(Word::new(b"retire", 0), guard, body, Move::None))
}

fn retire_guard(alloc: Global) -> Result<Guard, AllocError>
    ensures { IfOk result (λ g. guard_of g ≡ retire_guard) }
{
    root_beside(alloc, aimed_at(alloc)?)
}

/// `contracted and state = 3 and any p in ports ( GUARD )`
fn root_beside(alloc: Global, asked: Guard) -> Result<Guard, AllocError>
    ensures { IfOk result (λ g.
        guard_of g
        ≡ sample.and (tree.atom tree.contracted ∷ sample.own_is (codes "state") 3
        ∷ sample.some_port (guard_of asked) ∷ [])) }
{
    let (root, beside) = pair(own_state_is(alloc, 3), some_port(alloc, asked))?;
    all_three(alloc, Guard::Contracted, root, beside)
}

/// `( p . state = 1 or p . state = 4 ) and p . aim = peer_dir p`
fn aimed_at(alloc: Global) -> Result<Guard, AllocError>
    ensures { IfOk result (λ g. guard_of g ≡ aimed_at) }
{
    let (still, here) = pair(p_is(alloc, 1, 4), points_here(alloc, aim()))?;
    both(alloc, still, here)
}

fn retire_body(alloc: Global) -> Result<Vec<Stmt>, AllocError>
    ensures { IfOk result (λ ss. map stmt_of ss.items ≡ retire_body) }
{
    let (last, port) = pair(last_retired(alloc), turned(alloc, q(), 5))?;
    let_and_put(alloc, last, aim(), Term::Dir(port), 4)
}

/// `( p . state = 1 or p . state = 4 )`
/// `and not ( linked turn p 5 and ( turn p 5 . state = 1 or turn p 5 . state = 4 ) )`
fn last_retired(alloc: Global) -> Result<Guard, AllocError>
    ensures { IfOk result (λ g. guard_of g ≡ last_retired) }
{
    let follows = still_follows(alloc)?;
    let (still, last) = pair(p_is(alloc, 1, 4), not(alloc, follows))?;
    both(alloc, still, last)
}

/// `linked turn p 5 and ( turn p 5 . state = 1 or turn p 5 . state = 4 )`
fn still_follows(alloc: Global) -> Result<Guard, AllocError>
    ensures { IfOk result (λ g.
        guard_of g ≡ sample.and (
        tree.tested tree.linked (tree.turned sample.p (sample.literal 5)) ∷ next_is_still ∷ [])) }
{
    let (port, still) = pair(turned(alloc, p(), 5), next_is_still(alloc))?;
    both(alloc, Guard::Linked(port), still)
}

/// `turn p 5 . state = 1 or turn p 5 . state = 4`
fn next_is_still(alloc: Global) -> Result<Guard, AllocError>
    ensures { IfOk result (λ g. guard_of g ≡ next_is_still) }
{
    let (seed, retired) = pair(next_is(alloc, 1), next_is(alloc, 4))?;
    either(alloc, seed, retired)
}

/// `turn p 5 . state = NUMBER`
fn next_is(alloc: Global, value: u32) -> Result<Guard, AllocError>
    ensures { IfOk result (λ g.
        guard_of g ≡ sample.there_is (tree.turned sample.p (sample.literal 5)) (codes "state") value) }
{
    state_is(alloc, turned(alloc, p(), 5)?, value)
}

fn go(alloc: Global) -> Result<Action, AllocError>
    ensures { IfOk result (λ a.
        action_of a
        ≡ sample.action (codes "go") go_guard []
        (tree.through tree.expand (tree.turned (sample.first_port room) (sample.literal 1)))) }
{
    let (guard, port) = pair(go_guard(alloc), into_room(alloc))?;
    Ok(action(
        Word::new(b"go", 0),
        guard,
        Vec::new(alloc),
        Move::Expand(port),
    ))
}

/// `turn first p in ports ( GUARD ) 1`, for the guard of `room`
fn into_room(alloc: Global) -> Result<PortExpr, AllocError>
    ensures { IfOk result (λ r.
        port_of r ≡ tree.turned (sample.first_port room) (sample.literal 1)) }
{
    turned(alloc, first_port(alloc, room(alloc)?)?, 1)
}

fn go_guard(alloc: Global) -> Result<Guard, AllocError>
    ensures { IfOk result (λ g. guard_of g ≡ go_guard) }
{
    root_beside(alloc, room(alloc)?)
}

/// `( p . state = 1 or p . state = 4 ) and free turn p 1`
fn room(alloc: Global) -> Result<Guard, AllocError>
    ensures { IfOk result (λ g. guard_of g ≡ room) }
{
    let (still, next) = pair(p_is(alloc, 1, 4), turned(alloc, p(), 1))?;
    both(alloc, still, Guard::Free(next))
}

fn drag(alloc: Global) -> Result<Action, AllocError>
    ensures { IfOk result (λ a.
        action_of a
        ≡ sample.action (codes "drag") drag_guard drag_body
        (tree.through tree.pull (tree.bound (sample.example_name (codes "q"))))) }
{
    let (body, guard) = pair(drag_body(alloc), drag_guard(alloc))?;
    Ok(action(Word::new(b"drag", 0), guard, body, Move::Pull(q())))
}

fn drag_guard(alloc: Global) -> Result<Guard, AllocError>
    ensures { IfOk result (λ g. guard_of g ≡ drag_guard) }
{
    let (moving, alone, behind) = triple(
        in_state(alloc, 2, 3),
        none_is_idle(alloc),
        some_follower(alloc),
    )?;
    all_four(alloc, Guard::Expanded, moving, alone, behind)
}

/// `not any p in ports ( p . state = 0 )`
fn none_is_idle(alloc: Global) -> Result<Guard, AllocError>
    ensures { IfOk result (λ g.
        guard_of g ≡ tree.negation (sample.some_port (sample.there_is sample.p (codes "state") 0))) }
{
    let idle = state_is(alloc, p(), 0)?;
    not(alloc, some_port(alloc, idle)?)
}

/// A contracted follower of the tail is beside it.
fn some_follower(alloc: Global) -> Result<Guard, AllocError>
    ensures { IfOk result (λ g. guard_of g ≡ sample.some_port tail_follower) }
{
    some_port(alloc, tail_follower(alloc)?)
}

/// `not at_head p and p . state = 2 and not peer_expanded p and p . parent = peer_dir p`
fn tail_follower(alloc: Global) -> Result<Guard, AllocError>
    ensures { IfOk result (λ g. guard_of g ≡ tail_follower) }
{
    let contracted = not(alloc, Guard::PeerExpanded(p()))?;
    follower_at_tail(alloc, contracted)
}

/// `not at_head p and p . state = 2 and GUARD and p . parent = peer_dir p`
fn follower_at_tail(alloc: Global, asked: Guard) -> Result<Guard, AllocError>
    ensures { IfOk result (λ g.
        guard_of g
        ≡ sample.and (
        tree.negation (tree.tested tree.at_head sample.p) ∷ sample.there_is sample.p (codes "state") 2
        ∷ guard_of asked
        ∷ sample.equals (tree.of_port sample.p (sample.example_name (codes "parent")))
        (tree.direction tree.peer_side sample.p)
        ∷ [])) }
{
    let (at_tail, follower, here) = triple(
        not(alloc, Guard::AtHead(p())),
        state_is(alloc, p(), 2),
        points_here(alloc, parent()),
    )?;
    all_four(alloc, at_tail, follower, asked, here)
}

fn drag_body(alloc: Global) -> Result<Vec<Stmt>, AllocError>
    ensures { IfOk result (λ ss. map stmt_of ss.items ≡ drag_body) }
{
    let follower = tail_follower(alloc)?;
    let (first, turned) = pair(let_q(alloc, follower), parent_turned(alloc))?;
    two_stmts(alloc, first, Stmt::PutOf(q(), parent(), turned))
}

/// `mod6 ( inner - dir q + peer_dir q + 3 )`
fn parent_turned(alloc: Global) -> Result<Sum, AllocError>
    ensures { IfOk result (λ s. sum_of s ≡ sample.sum_of_term (tree.mod6 follower_turned)) }
{
    one(alloc, Term::Mod6(follower_turned(alloc)?))
}

/// `inner - dir q + peer_dir q + 3`
fn follower_turned(alloc: Global) -> Result<Sum, AllocError>
    ensures { IfOk result (λ s. sum_of s ≡ follower_turned) }
{
    Ok(Sum {
        parts: vec![in alloc;
            part(false, Term::Inner),
            part(true, Term::Dir(q())),
            part(false, Term::PeerDir(q())),
            part(false, Term::Number(literal(3))),
        ]?,
    })
}

fn part(minus: bool, term: Term) -> Part
    ensures { part_of result ≡ record { minus = minus; term = term_of term } }
{
    Part { minus, term }
}

fn rest(alloc: Global) -> Result<Action, AllocError>
    ensures { IfOk result (λ a.
        action_of a ≡ sample.action (codes "rest") rest_guard [] (tree.contract Tail)) }
{
    Ok(action(
        Word::new(b"rest", 0),
        rest_guard(alloc)?,
        Vec::new(alloc),
        Move::Contract(End::Tail),
    ))
}

fn rest_guard(alloc: Global) -> Result<Guard, AllocError>
    ensures { IfOk result (λ g. guard_of g ≡ rest_guard) }
{
    let waits = waits(alloc)?;
    let (moving, free) = pair(in_state(alloc, 2, 3), not(alloc, waits))?;
    all_three(alloc, Guard::Expanded, moving, free)
}

/// There is an idle neighbour, or a follower of the tail.
fn waits(alloc: Global) -> Result<Guard, AllocError>
    ensures { IfOk result (λ g. guard_of g ≡ waits) }
{
    let (idle, follower) = pair(state_is(alloc, p(), 0), head_follower(alloc))?;
    some_port(alloc, either(alloc, idle, follower)?)
}

/// `not at_head p and p . state = 2 and peer_head p and p . parent = peer_dir p`
fn head_follower(alloc: Global) -> Result<Guard, AllocError>
    ensures { IfOk result (λ g. guard_of g ≡ head_follower) }
{
    follower_at_tail(alloc, Guard::PeerHead(p()))
}
