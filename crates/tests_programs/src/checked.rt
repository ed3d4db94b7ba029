use crate::check_examples::{DECLARATIONS, EXPRESSIONS, Judged, STATEMENTS};
use crate::check_faults::{BOUND, DECLARED, USED};
use action_check::{Checked, check};
use action_parser::parse_program;
use std::alloc::Global;
use std::process::Abort;
use std::test::Fail;
use text_tokens::{ReadRefusal, Refusal, RefusalKind, Tokens};

/// The program of a text that is read, judged.
fn judged(alloc: Global, text: &str) -> Result<Result<Checked, ReadRefusal>, Fail> {
    if text.len() > 1_000_000 {
        Err("a long text")?;
    }
    let mut tokens = Tokens::new(text.as_bytes());
    let program = parse_program(alloc, &mut tokens).ok().ok_or("no program")?;
    Ok(check(alloc, program))
}

/// The line and the kind of the fault of a text that is read.
fn fault(alloc: Global, text: &str) -> Result<Option<(u32, RefusalKind)>, Fail> {
    match judged(alloc, text)? {
        Ok(_) => Ok(None),
        Err(ReadRefusal::Refused(Refusal { line, kind })) => Ok(Some((line, kind))),
        Err(ReadRefusal::NoMemory) => {
            Err("no memory")?;
            Ok(None)
        }
    }
}

fn are_judged(rt: &impl Abort, alloc: Global, table: &[Judged]) -> Result<(), Fail> {
    for (text, wanted) in table {
        assert!(rt; fault(alloc, text)? == *wanted, "{text}");
    }
    Ok(())
}

#[test]
fn names_and_numbers_in_expressions_are_fine_or_refused(rt: HostRuntime) -> Result<(), Fail> {
    are_judged(&rt, rt.alloc(), &EXPRESSIONS)
}

#[test]
fn names_in_statements_and_movements_are_fine_or_refused(rt: HostRuntime) -> Result<(), Fail> {
    are_judged(&rt, rt.alloc(), &STATEMENTS)
}

#[test]
fn variables_and_actions_are_fine_or_refused(rt: HostRuntime) -> Result<(), Fail> {
    are_judged(&rt, rt.alloc(), &DECLARATIONS)
}

#[test]
fn declared_names_and_numbers_are_fine_or_refused(rt: HostRuntime) -> Result<(), Fail> {
    are_judged(&rt, rt.alloc(), &DECLARED)
}

#[test]
fn names_of_ports_are_fine_or_refused(rt: HostRuntime) -> Result<(), Fail> {
    are_judged(&rt, rt.alloc(), &BOUND)
}

#[test]
fn names_are_refused_where_they_are_used(rt: HostRuntime) -> Result<(), Fail> {
    are_judged(&rt, rt.alloc(), &USED)
}

#[test]
fn a_checked_program_is_read(rt: HostRuntime) -> Result<(), Fail> {
    let text = "program var x 255 var p 7 action x when true action p when true end";
    let checked = judged(rt.alloc(), text)?.ok().ok_or("a fault")?;
    assert!(rt; checked.vars() == 2);
    assert!(rt; checked.actions() == 2);
    assert!(rt; checked.maxes() == [255, 7, 0, 0, 0, 0, 0, 0]);
    assert!(rt; checked.program().vars().len() == 2);
    assert!(rt; !checked.guard());
    assert!(rt; checked.with_guard(true).guard());
    Ok(())
}
