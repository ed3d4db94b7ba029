//! Writes trees out, as the tables of texts have them.

use action_tree::{
    Action, Cmp, DirTerm, Guard, Lit, Move, Part, PortExpr, PortSet, Program, Stmt, Sum, Term, Word,
};
use amoebot_state::End;
use std::alloc::{AllocError, Global};

fn put_line(out: &mut String, line: u32) -> Result<(), AllocError> {
    if line != 1 {
        write!(out, "@{line}")?;
    }
    Ok(())
}

fn put_word(out: &mut String, word: &Word) -> Result<(), AllocError> {
    out.push_str(word.text.as_str())?;
    put_line(out, word.line)
}

fn put_literal(out: &mut String, literal: &Lit) -> Result<(), AllocError> {
    let value = literal.value;
    write!(out, "{value}")?;
    put_line(out, literal.line)
}

fn put_set(out: &mut String, set: PortSet) -> Result<(), AllocError> {
    out.push_str(match set {
        PortSet::Ports => " ports ",
        PortSet::Free => " free ",
    })
}

fn put_end(out: &mut String, end: End) -> Result<(), AllocError> {
    out.push_str(match end {
        End::Head => "head",
        End::Tail => "tail",
    })
}

#[cycle(expression)]
fn put_port(out: &mut String, port: &PortExpr) -> Result<(), AllocError> {
    match port {
        PortExpr::Name(name) => put_word(out, name),
        PortExpr::At(end, dir) => {
            out.push_str("(")?;
            put_end(out, *end)?;
            out.push_str(" ")?;
            match dir {
                DirTerm::Number(literal) => put_literal(out, literal)?,
                DirTerm::Own(name) => put_word(out, name)?,
            }
            out.push_str(")")
        }
        PortExpr::Turn(inner, by) => {
            out.push_str("(turn ")?;
            put_port(out, inner)?;
            out.push_str(" ")?;
            put_literal(out, by)?;
            out.push_str(")")
        }
        PortExpr::First(name, set, guard) => {
            out.push_str("(first ")?;
            put_word(out, name)?;
            put_set(out, *set)?;
            put_guard(out, guard)?;
            out.push_str(")")
        }
    }
}

#[cycle(expression)]
fn put_term(out: &mut String, term: &Term) -> Result<(), AllocError> {
    match term {
        Term::Number(literal) => put_literal(out, literal),
        Term::Own(name) => put_word(out, name),
        Term::Of(port, name) => {
            out.push_str("(of ")?;
            put_port(out, port)?;
            out.push_str(" ")?;
            put_word(out, name)?;
            out.push_str(")")
        }
        Term::Count(name, set, guard) => {
            out.push_str("(count ")?;
            put_word(out, name)?;
            put_set(out, *set)?;
            put_guard(out, guard)?;
            out.push_str(")")
        }
        Term::Dir(port) => {
            out.push_str("(dir ")?;
            put_port(out, port)?;
            out.push_str(")")
        }
        Term::PeerDir(port) => {
            out.push_str("(peer_dir ")?;
            put_port(out, port)?;
            out.push_str(")")
        }
        Term::Inner => out.push_str("inner"),
        Term::Mod6(sum) => {
            out.push_str("(mod6 ")?;
            put_sum(out, sum)?;
            out.push_str(")")
        }
    }
}

#[cycle(expression)]
fn put_parts(out: &mut String, parts: &[Part]) -> Result<(), AllocError> {
    out.push_str("(sum")?;
    for part in parts {
        out.push_str(if part.minus { " - " } else { " + " })?;
        put_term(out, &part.term)?;
    }
    out.push_str(")")
}

/// A sum of one term without a minus is written as that.
#[cycle(expression)]
fn put_sum(out: &mut String, sum: &Sum) -> Result<(), AllocError> {
    match sum.parts.as_slice() {
        [Part { minus: false, term }] => put_term(out, term),
        parts => put_parts(out, parts),
    }
}

#[cycle(expression)]
fn put_guards(out: &mut String, word: &str, guards: &[Guard]) -> Result<(), AllocError> {
    out.push_str("(")?;
    out.push_str(word)?;
    for guard in guards {
        out.push_str(" ")?;
        put_guard(out, guard)?;
    }
    out.push_str(")")
}

#[cycle(expression)]
fn put_test(out: &mut String, word: &str, port: &PortExpr) -> Result<(), AllocError> {
    out.push_str("(")?;
    out.push_str(word)?;
    out.push_str(" ")?;
    put_port(out, port)?;
    out.push_str(")")
}

#[cycle(expression)]
fn put_quantified(
    out: &mut String,
    word: &str,
    name: &Word,
    set: PortSet,
    guard: &Guard,
) -> Result<(), AllocError> {
    out.push_str("(")?;
    out.push_str(word)?;
    out.push_str(" ")?;
    put_word(out, name)?;
    put_set(out, set)?;
    put_guard(out, guard)?;
    out.push_str(")")
}

#[cycle(expression)]
fn put_guard(out: &mut String, guard: &Guard) -> Result<(), AllocError> {
    match guard {
        Guard::True => out.push_str("true"),
        Guard::False => out.push_str("false"),
        Guard::Contracted => out.push_str("contracted"),
        Guard::Expanded => out.push_str("expanded"),
        Guard::Not(inner) => {
            out.push_str("(not ")?;
            put_guard(out, inner)?;
            out.push_str(")")
        }
        Guard::And(guards) => put_guards(out, "and", guards),
        Guard::Or(guards) => put_guards(out, "or", guards),
        Guard::Any(name, set, inner) => put_quantified(out, "any", name, *set, inner),
        Guard::All(name, set, inner) => put_quantified(out, "all", name, *set, inner),
        Guard::Linked(port) => put_test(out, "linked", port),
        Guard::Free(port) => put_test(out, "free", port),
        Guard::AtHead(port) => put_test(out, "at_head", port),
        Guard::PeerExpanded(port) => put_test(out, "peer_expanded", port),
        Guard::PeerHead(port) => put_test(out, "peer_head", port),
        Guard::Compare(left, cmp, right) => {
            out.push_str("(")?;
            put_sum(out, left)?;
            out.push_str(match cmp {
                Cmp::Eq => " = ",
                Cmp::Ne => " != ",
                Cmp::Lt => " < ",
                Cmp::Le => " <= ",
                Cmp::Gt => " > ",
                Cmp::Ge => " >= ",
            })?;
            put_sum(out, right)?;
            out.push_str(")")
        }
    }
}

#[cycle(statement)]
fn put_stmts(out: &mut String, stmts: &[Stmt]) -> Result<(), AllocError> {
    for stmt in stmts {
        out.push_str(" ")?;
        put_stmt(out, stmt)?;
    }
    Ok(())
}

#[cycle(statement)]
fn put_stmt(out: &mut String, stmt: &Stmt) -> Result<(), AllocError> {
    match stmt {
        Stmt::Put(name, sum) => {
            out.push_str("(put ")?;
            put_word(out, name)?;
            out.push_str(" ")?;
            put_sum(out, sum)?;
        }
        Stmt::PutOf(port, name, sum) => {
            out.push_str("(put_of ")?;
            put_port(out, port)?;
            out.push_str(" ")?;
            put_word(out, name)?;
            out.push_str(" ")?;
            put_sum(out, sum)?;
        }
        Stmt::Let(name, port) => {
            out.push_str("(let ")?;
            put_word(out, name)?;
            out.push_str(" ")?;
            put_port(out, port)?;
        }
        Stmt::If(guard, body, otherwise) => {
            out.push_str("(if ")?;
            put_guard(out, guard)?;
            out.push_str(" then")?;
            put_stmts(out, body)?;
            if !otherwise.is_empty() {
                out.push_str(" else")?;
                put_stmts(out, otherwise)?;
            }
        }
        Stmt::For(name, set, guard, body) => {
            out.push_str("(for ")?;
            put_word(out, name)?;
            put_set(out, *set)?;
            put_guard(out, guard)?;
            out.push_str(" do")?;
            put_stmts(out, body)?;
        }
    }
    out.push_str(")")
}

fn put_through(out: &mut String, word: &str, port: &PortExpr) -> Result<(), AllocError> {
    out.push_str(word)?;
    put_port(out, port)?;
    out.push_str(")")
}

fn put_move(out: &mut String, moved: &Move) -> Result<(), AllocError> {
    match moved {
        Move::None => out.push_str("none"),
        Move::Expand(port) => put_through(out, "(expand ", port),
        Move::Push(port) => put_through(out, "(push ", port),
        Move::Pull(port) => put_through(out, "(pull ", port),
        Move::Contract(end) => {
            out.push_str("(contract ")?;
            put_end(out, *end)?;
            out.push_str(")")
        }
    }
}

fn put_action(out: &mut String, action: &Action) -> Result<(), AllocError> {
    out.push_str("; action ")?;
    put_word(out, &action.name)?;
    out.push_str(" when ")?;
    put_guard(out, &action.guard)?;
    if !action.body.is_empty() {
        out.push_str(" do")?;
        put_stmts(out, &action.body)?;
    }
    out.push_str(" move ")?;
    put_move(out, &action.moved)
}

/// The tree of a program.
pub fn written(alloc: Global, program: &Program) -> Result<String, AllocError> {
    let mut out = String::new(alloc);
    out.push_str(if program.guard() {
        "guard on"
    } else {
        "guard off"
    })?;
    for var in program.vars() {
        out.push_str("; var ")?;
        put_word(&mut out, &var.name)?;
        out.push_str(" ")?;
        put_literal(&mut out, &var.max)?;
    }
    for action in program.actions() {
        put_action(&mut out, action)?;
    }
    Ok(out)
}
