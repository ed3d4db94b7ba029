use crate::faults::*;
use crate::first_faults::FIRST_FAULTS;
use crate::limits::*;
use crate::trees::*;
use crate::walk::written;
use action_parser::parse_program;
use std::alloc::{AllocError, Global};
use std::process::Abort;
use std::test::Fail;
use tests_texts::text_of;
use text_tokens::{ReadRefusal, Refusal, RefusalKind, Tokens};

/// The line and the kind of the refusal of a text, or none where it is read.
fn fault(alloc: Global, text: &str) -> Result<Option<(u32, RefusalKind)>, AllocError> {
    if text.len() > 1_000_000 {
        return Err(AllocError);
    }
    let mut tokens = Tokens::new(text.as_bytes());
    match parse_program(alloc, &mut tokens) {
        Ok(_) => Ok(None),
        Err(ReadRefusal::Refused(Refusal { line, kind })) => Ok(Some((line, kind))),
        Err(ReadRefusal::NoMemory) => Err(AllocError),
    }
}

/// Each text of a table is read as its tree.
fn are_read(rt: &impl Abort, alloc: Global, table: &[Read]) -> Result<(), AllocError> {
    for (text, tree) in table {
        assert!(rt; text.len() < 1_000_000);
        let mut tokens = Tokens::new(text.as_bytes());
        let Ok(program) = parse_program(alloc, &mut tokens) else {
            panic!(rt; "{text}");
        };
        let found = written(alloc, &program)?;
        assert!(rt; found.as_str() == *tree, "{text}");
    }
    Ok(())
}

/// Each text of a table is refused with its line and kind.
fn are_refused(rt: &impl Abort, alloc: Global, table: &[Fault]) -> Result<(), AllocError> {
    for (text, line, kind) in table {
        let found = fault(alloc, text)?;
        assert!(rt; found == Some((*line, *kind)), "{text}");
    }
    Ok(())
}

/// Each long text of a table is read or refused as the table says.
fn are_limited(rt: &impl Abort, alloc: Global, table: &[Long]) -> Result<(), Fail> {
    for (template, wanted) in table {
        let text = text_of(alloc, template, &[])?;
        let found = fault(alloc, text.as_str())?;
        assert!(rt; found == *wanted, "{text}");
    }
    Ok(())
}

#[test]
fn programs_are_read(rt: HostRuntime) -> Result<(), Fail> {
    are_read(&rt, rt.alloc(), &WHOLE_TEXTS)?;
    Ok(())
}

#[test]
fn guards_are_read(rt: HostRuntime) -> Result<(), Fail> {
    are_read(&rt, rt.alloc(), &GUARD_TEXTS)?;
    Ok(())
}

#[test]
fn sums_are_read(rt: HostRuntime) -> Result<(), Fail> {
    are_read(&rt, rt.alloc(), &SUM_TEXTS)?;
    Ok(())
}

#[test]
fn statements_are_read(rt: HostRuntime) -> Result<(), Fail> {
    are_read(&rt, rt.alloc(), &STATEMENT_TEXTS)?;
    Ok(())
}

#[test]
fn names_in_force_are_counted(rt: HostRuntime) -> Result<(), Fail> {
    are_read(&rt, rt.alloc(), &LONGER_TEXTS)?;
    Ok(())
}

#[test]
fn program_faults_are_told(rt: HostRuntime) -> Result<(), Fail> {
    are_refused(&rt, rt.alloc(), &PROGRAM_FAULTS)?;
    Ok(())
}

#[test]
fn action_faults_are_told(rt: HostRuntime) -> Result<(), Fail> {
    are_refused(&rt, rt.alloc(), &ACTION_FAULTS)?;
    Ok(())
}

#[test]
fn statement_faults_are_told(rt: HostRuntime) -> Result<(), Fail> {
    are_refused(&rt, rt.alloc(), &STATEMENT_FAULTS)?;
    Ok(())
}

#[test]
fn block_faults_are_told(rt: HostRuntime) -> Result<(), Fail> {
    are_refused(&rt, rt.alloc(), &BLOCK_FAULTS)?;
    Ok(())
}

#[test]
fn guard_faults_are_told(rt: HostRuntime) -> Result<(), Fail> {
    are_refused(&rt, rt.alloc(), &GUARD_FAULTS)?;
    Ok(())
}

#[test]
fn sum_faults_are_told(rt: HostRuntime) -> Result<(), Fail> {
    are_refused(&rt, rt.alloc(), &SUM_FAULTS)?;
    Ok(())
}

#[test]
fn term_faults_are_told(rt: HostRuntime) -> Result<(), Fail> {
    are_refused(&rt, rt.alloc(), &TERM_FAULTS)?;
    Ok(())
}

#[test]
fn port_faults_are_told(rt: HostRuntime) -> Result<(), Fail> {
    are_refused(&rt, rt.alloc(), &PORT_FAULTS)?;
    Ok(())
}

#[test]
fn name_faults_are_told(rt: HostRuntime) -> Result<(), Fail> {
    are_refused(&rt, rt.alloc(), &NAME_FAULTS)?;
    Ok(())
}

#[test]
fn levels_are_kept_exactly(rt: HostRuntime) -> Result<(), Fail> {
    are_limited(&rt, rt.alloc(), &LEVELS)
}

#[test]
fn counts_are_kept_exactly(rt: HostRuntime) -> Result<(), Fail> {
    are_limited(&rt, rt.alloc(), &COUNTS)
}

#[test]
fn the_first_fault_is_told(rt: HostRuntime) -> Result<(), Fail> {
    are_limited(&rt, rt.alloc(), &FIRST_FAULTS)
}

#[test]
fn hexagon_is_read(rt: HostRuntime) -> Result<(), Fail> {
    assert!(rt; HEXAGON.len() < 1_000_000);
    let mut tokens = Tokens::new(HEXAGON.as_bytes());
    let program = parse_program(rt.alloc(), &mut tokens)?;
    assert!(rt; !program.guard());
    assert!(rt; program.vars().len() == 3);
    assert!(rt; program.actions().len() == 6);
    assert!(rt; tokens.next() == Ok(None));
    Ok(())
}
