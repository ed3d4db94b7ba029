ghost use Rattle.std.specs.Prelude.{◌≡◌, true, false, map, IfOk};
ghost use Rattle.action_tree.specs.Trees as tree;
ghost use Rattle.action_tree.specs.Views.{name_of, guard_of, port_of, term_of, sum_of, stmt_of, move_of, action_of};
ghost use Rattle.action_tree.specs.Words.{is_word};
ghost use Rattle.action_tree.specs.Shipped as sample;
ghost use Rattle.action_tree.specs.Shipped.{sum_of_term};

use action_tree::{
    Action, Cmp, DirTerm, Guard, Lit, Move, Part, PortExpr, PortSet, Program, Stmt, Sum, Term, Var,
    Word,
};
use amoebot_state::End;
use std::alloc::{AllocError, Global};
use std::test::Fail;

fn word(text: &[u8]) -> Word
    requires { is_word text.now ≡ true }
    ensures { name_of result ≡ sample.example_name text.now }
{
    Word::new(text, 0)
}

fn p() -> PortExpr
    ensures { port_of result ≡ sample.p }
{
    PortExpr::Name(word(b"p"))
}

fn head_0() -> PortExpr
    ensures { port_of result ≡ sample.head_0 }
{
    PortExpr::At(End::Head, DirTerm::Number(Lit { value: 0, line: 0 }))
}

fn tail_x() -> PortExpr
    ensures { port_of result ≡ sample.tail_x }
{
    PortExpr::At(End::Tail, DirTerm::Own(word(b"x")))
}

fn turned_p(alloc: Global) -> Result<PortExpr, AllocError>
    ensures { IfOk result (λ r. port_of r ≡ tree.turned sample.p (sample.literal 1)) }
{
    Ok(PortExpr::Turn(Box::new(alloc, p())?, Lit { value: 1, line: 0 }))
}

fn first_p(alloc: Global) -> Result<PortExpr, AllocError>
    ensures { IfOk result (λ r. port_of r ≡ sample.first_port (tree.atom tree.always)) }
{
    Ok(PortExpr::First(word(b"p"), PortSet::Ports, Box::new(alloc, Guard::True)?))
}

fn sum(alloc: Global, term: Term) -> Result<Sum, AllocError>
    ensures { IfOk result (λ s. sum_of s ≡ sum_of_term (term_of term)) }
{
    Ok(Sum {
        parts: vec![in alloc; Part { minus: false, term }]?,
    })
}

fn every_sum(alloc: Global) -> Result<Sum, AllocError>
    ensures { IfOk result (λ s. sum_of s ≡ sample.every_sum) }
{
    let count = Term::Count(word(b"p"), PortSet::Ports, Box::new(alloc, Guard::True)?);
    let modulo = Term::Mod6(sum(alloc, Term::Own(word(b"x")))?);
    Ok(Sum {
        parts: vec![in alloc;
            Part {
                minus: true,
                term: Term::Number(Lit { value: 1, line: 0 })
            },
            Part {
                minus: false,
                term: Term::Own(word(b"x"))
            },
            Part {
                minus: true,
                term: Term::Of(p(), word(b"x"))
            },
            Part {
                minus: false,
                term: count
            },
            Part {
                minus: false,
                term: Term::Dir(p())
            },
            Part {
                minus: false,
                term: Term::PeerDir(p())
            },
            Part {
                minus: false,
                term: Term::Inner
            },
            Part {
                minus: false,
                term: modulo
            },
        ]?,
    })
}

fn inner_is(alloc: Global, cmp: Cmp) -> Result<Guard, AllocError>
    ensures { IfOk result (λ g.
        guard_of g ≡ tree.comparison (sum_of_term tree.inner) cmp (sum_of_term tree.inner)) }
{
    Ok(Guard::Compare(sum(alloc, Term::Inner)?, cmp, sum(alloc, Term::Inner)?))
}

fn every_comparison(alloc: Global) -> Result<Vec<Guard>, AllocError>
    ensures { IfOk result (λ gs. map guard_of gs.items ≡ sample.every_comparison) }
{
    Ok(vec![in alloc;
        Guard::Compare(every_sum(alloc)?, Cmp::Eq, sum(alloc, Term::Inner)?),
        inner_is(alloc, Cmp::Ne)?,
        inner_is(alloc, Cmp::Lt)?,
        inner_is(alloc, Cmp::Le)?,
        inner_is(alloc, Cmp::Gt)?,
        inner_is(alloc, Cmp::Ge)?,
    ]?)
}

fn every_guard(alloc: Global) -> Result<Guard, AllocError>
    ensures { IfOk result (λ g. guard_of g ≡ sample.every_guard) }
{
    let not_false = Guard::Not(Box::new(alloc, Guard::False)?);
    let linked = Box::new(alloc, Guard::Linked(p()))?;
    let free = Box::new(alloc, Guard::Free(head_0()))?;
    Ok(Guard::Or(vec![in alloc;
        Guard::And(vec![in alloc; Guard::True, Guard::Contracted, Guard::Expanded, not_false]?),
        Guard::Any(word(b"p"), PortSet::Ports, linked),
        Guard::All(word(b"p"), PortSet::Free, free),
        Guard::AtHead(tail_x()),
        Guard::PeerExpanded(turned_p(alloc)?),
        Guard::PeerHead(first_p(alloc)?),
        Guard::And(every_comparison(alloc)?),
    ]?))
}

fn put_inner(alloc: Global) -> Result<Vec<Stmt>, AllocError>
    ensures { IfOk result (λ ss. map stmt_of ss.items ≡ sample.put_inner) }
{
    Ok(vec![in alloc; Stmt::Put(word(b"x"), sum(alloc, Term::Inner)?)]?)
}

fn every_stmt(alloc: Global) -> Result<Vec<Stmt>, AllocError>
    ensures { IfOk result (λ ss. map stmt_of ss.items ≡ sample.every_stmt) }
{
    Ok(vec![in alloc;
        Stmt::Put(word(b"x"), every_sum(alloc)?),
        Stmt::PutOf(p(), word(b"x"), sum(alloc, Term::Inner)?),
        Stmt::Let(word(b"q"), p()),
        Stmt::If(Guard::True, put_inner(alloc)?, put_inner(alloc)?),
        Stmt::For(word(b"p"), PortSet::Ports, Guard::True, put_inner(alloc)?),
    ]?)
}

fn moving(alloc: Global, name: Word, moved: Move) -> Action
    ensures { action_of result ≡ record {
      name = name_of name;
      guard = tree.atom tree.always;
      body = tree.no_stmts;
      moved = move_of moved;
    } }
{
    Action {
        name,
        guard: Guard::True,
        body: Vec::new(alloc),
        moved,
    }
}

fn every_action(alloc: Global) -> Result<Vec<Action>, AllocError>
    ensures { IfOk result (λ actions. map action_of actions.items ≡ sample.every_form.actions) }
{
    Ok(vec![in alloc;
        Action {
            name: word(b"a"),
            guard: every_guard(alloc)?,
            body: every_stmt(alloc)?,
            moved: Move::None,
        },
        moving(alloc, word(b"b"), Move::Expand(p())),
        moving(alloc, word(b"c"), Move::Contract(End::Head)),
        moving(alloc, word(b"d"), Move::Push(p())),
        moving(alloc, word(b"e"), Move::Pull(p())),
    ]?)
}

fn every_form(alloc: Global) -> Result<Program, AllocError>
    ensures { IfOk result (λ p. p ≡ sample.every_form) }
{
    let max = Lit { value: 1, line: 0 };
    let vars = vec![in alloc;
        Var {
            name: word(b"x"),
            max
        },
    ]?;
    Ok(Program::make(true, vars, every_action(alloc)?))
}

#[test]
fn every_form_is_made(rt: HostRuntime) -> Result<(), Fail> {
    let program = every_form(rt.alloc())?;
    assert!(rt; program.guard());
    assert!(rt; program.vars().len() == 1);
    assert!(rt; program.actions().len() == 5);
    Ok(())
}
