//! The parts of programs, all on line 0.

ghost use Rattle.std.specs.Prelude.{◌≡◌, ◌∷◌, [], false, codes, map, IfOk, Ok};
ghost use Rattle.action_tree.specs.Views.{name_of, literal_of, guard_of, port_of, term_of, sum_of, stmt_of};
ghost use Rattle.action_tree.specs.Views.{stmts_of, move_of, var_of, action_of};
ghost use Rattle.action_tree.specs.declared.expression.PortSet.TheVariants.{Ports};
ghost use Rattle.action_tree.specs.Trees as tree;
ghost use Rattle.action_tree.specs.Shipped as sample;

use action_tree::{
    Action, Cmp, Guard, Lit, Move, Part, PortExpr, PortSet, Stmt, Sum, Term, Var, Word,
};
use std::alloc::{AllocError, Global};

pub(crate) fn literal(value: u32) -> Lit
    ensures { literal_of result ≡ sample.literal value }
{
    Lit { value, line: 0 }
}

pub(crate) fn p() -> PortExpr
    ensures { port_of result ≡ sample.p }
{
    PortExpr::Name(Word::new(b"p", 0))
}

pub(crate) fn q() -> PortExpr
    ensures { port_of result ≡ tree.bound (sample.example_name (codes "q")) }
{
    PortExpr::Name(Word::new(b"q", 0))
}

/// Two parts, where both were made.
/// A caller that gets its parts by this owns none at its `?`, which leaves it less to prove.
pub(crate) fn pair<A: Drop, B: Drop>(
    one: Result<A, AllocError>,
    two: Result<B, AllocError>,
) -> Result<(A, B), AllocError>
    ensures { IfOk result (λ r. (one ≡ Ok r.0) × (two ≡ Ok r.1)) }
{
    let one = one?;
    match two {
        Ok(two) => Ok((one, two)),
        Err(error) => Err(error),
    }
}

/// Three parts, where all were made.
pub(crate) fn triple<A: Drop, B: Drop, C: Drop>(
    one: Result<A, AllocError>,
    two: Result<B, AllocError>,
    three: Result<C, AllocError>,
) -> Result<(A, B, C), AllocError>
    ensures { IfOk result (λ r. (one ≡ Ok r.0) × (two ≡ Ok r.1) × (three ≡ Ok r.2)) }
{
    let (one, (two, three)) = pair(one, pair(two, three))?;
    Ok((one, two, three))
}

/// A sum of one term.
pub(crate) fn one(alloc: Global, term: Term) -> Result<Sum, AllocError>
    ensures { IfOk result (λ s. sum_of s ≡ sample.sum_of_term (term_of term)) }
{
    Ok(Sum {
        parts: vec![in alloc; Part { minus: false, term }]?,
    })
}

/// A sum that is a number.
pub(crate) fn number(alloc: Global, value: u32) -> Result<Sum, AllocError>
    ensures { IfOk result (λ s. sum_of s ≡ sample.sum_of_term (tree.number (sample.literal value))) }
{
    one(alloc, Term::Number(literal(value)))
}

/// `TERM = NUMBER`
pub(crate) fn is(alloc: Global, term: Term, value: u32) -> Result<Guard, AllocError>
    ensures { IfOk result (λ g.
        guard_of g ≡ sample.equals (term_of term) (tree.number (sample.literal value))) }
{
    let (left, right) = pair(one(alloc, term), number(alloc, value))?;
    Ok(Guard::Compare(left, Cmp::Eq, right))
}

/// `not GUARD`
pub(crate) fn not(alloc: Global, guard: Guard) -> Result<Guard, AllocError>
    ensures { IfOk result (λ g. guard_of g ≡ tree.negation (guard_of guard)) }
{
    Ok(Guard::Not(Box::new(alloc, guard)?))
}

/// `GUARD and GUARD`
pub(crate) fn both(alloc: Global, one: Guard, two: Guard) -> Result<Guard, AllocError>
    ensures { IfOk result (λ g. guard_of g ≡ sample.and (guard_of one ∷ guard_of two ∷ [])) }
{
    Ok(Guard::And(vec![in alloc; one, two]?))
}

/// `GUARD or GUARD`
pub(crate) fn either(alloc: Global, one: Guard, two: Guard) -> Result<Guard, AllocError>
    ensures { IfOk result (λ g. guard_of g ≡ sample.or (guard_of one ∷ guard_of two ∷ [])) }
{
    Ok(Guard::Or(vec![in alloc; one, two]?))
}

/// `GUARD and GUARD and GUARD`
pub(crate) fn all_three(
    alloc: Global,
    one: Guard,
    two: Guard,
    three: Guard,
) -> Result<Guard, AllocError>
    ensures { IfOk result (λ g. guard_of g ≡ sample.and (guard_of one ∷ guard_of two ∷ guard_of three ∷ [])) }
{
    Ok(Guard::And(vec![in alloc; one, two, three]?))
}

/// `GUARD and GUARD and GUARD and GUARD`
pub(crate) fn all_four(
    alloc: Global,
    one: Guard,
    two: Guard,
    three: Guard,
    four: Guard,
) -> Result<Guard, AllocError>
    ensures { IfOk result (λ g.
        guard_of g ≡ sample.and (guard_of one ∷ guard_of two ∷ guard_of three ∷ guard_of four ∷ [])) }
{
    Ok(Guard::And(vec![in alloc; one, two, three, four]?))
}

/// `any p in ports ( GUARD )`
pub(crate) fn some_port(alloc: Global, guard: Guard) -> Result<Guard, AllocError>
    ensures { IfOk result (λ g. guard_of g ≡ sample.some_port (guard_of guard)) }
{
    let guard = Box::new(alloc, guard)?;
    Ok(Guard::Any(Word::new(b"p", 0), PortSet::Ports, guard))
}

/// `first p in ports ( GUARD )`
pub(crate) fn first_port(alloc: Global, guard: Guard) -> Result<PortExpr, AllocError>
    ensures { IfOk result (λ r. port_of r ≡ sample.first_port (guard_of guard)) }
{
    let guard = Box::new(alloc, guard)?;
    Ok(PortExpr::First(Word::new(b"p", 0), PortSet::Ports, guard))
}

/// `turn PORT NUMBER`
pub(crate) fn turned(alloc: Global, port: PortExpr, by: u32) -> Result<PortExpr, AllocError>
    ensures { IfOk result (λ r. port_of r ≡ tree.turned (port_of port) (sample.literal by)) }
{
    Ok(PortExpr::Turn(Box::new(alloc, port)?, literal(by)))
}

/// `NAME := NUMBER`
pub(crate) fn set_to(alloc: Global, name: Word, value: u32) -> Result<Stmt, AllocError>
    ensures { IfOk result (λ s.
        stmt_of s ≡ tree.put (name_of name) (sample.sum_of_term (tree.number (sample.literal value)))) }
{
    Ok(Stmt::Put(name, number(alloc, value)?))
}

/// One statement alone.
pub(crate) fn one_stmt(alloc: Global, stmt: Stmt) -> Result<Vec<Stmt>, AllocError>
    ensures { IfOk result (λ ss. map stmt_of ss.items ≡ stmt_of stmt ∷ []) }
{
    Ok(vec![in alloc; stmt]?)
}

/// `STATEMENT ; STATEMENT`
pub(crate) fn two_stmts(alloc: Global, one: Stmt, two: Stmt) -> Result<Vec<Stmt>, AllocError>
    ensures { IfOk result (λ ss. map stmt_of ss.items ≡ stmt_of one ∷ stmt_of two ∷ []) }
{
    Ok(vec![in alloc; one, two]?)
}

/// `STATEMENT ; STATEMENT ; STATEMENT`
pub(crate) fn three_stmts(
    alloc: Global,
    one: Stmt,
    two: Stmt,
    three: Stmt,
) -> Result<Vec<Stmt>, AllocError>
    ensures { IfOk result (λ ss. map stmt_of ss.items ≡ stmt_of one ∷ stmt_of two ∷ stmt_of three ∷ []) }
{
    Ok(vec![in alloc; one, two, three]?)
}

/// `var NAME NUMBER`
pub(crate) fn var(name: Word, max: u32) -> Var
    ensures { var_of result ≡ record { name = name_of name; max = sample.literal max } }
{
    Var {
        name,
        max: literal(max),
    }
}

/// `action NAME when GUARD do BODY move MOVE`
pub(crate) fn action(name: Word, guard: Guard, body: Vec<Stmt>, moved: Move) -> Action
    ensures { action_of result ≡ record {
      name = name_of name;
      guard = guard_of guard;
      body = stmts_of body.items;
      moved = move_of moved;
    } }
{
    Action {
        name,
        guard,
        body,
        moved,
    }
}
