use crate::faults::{BAD_BYTES, TWO_FAULTS};
use crate::form_tables::{OTHER_FORMS, REPLAY_FORMS, RUN_FORMS};
use crate::journals::{JOURNALS, Journal, LONG_JOURNALS};
use crate::least_versions::{LEAST_VERSIONS, LeastRow};
use crate::limits::LIMITS;
use crate::lists::LISTS_AND_SCHEDULES;
use crate::old_values::{OLD_VALUES, ONE_ENTRY_TOO_MANY, Valued};
use crate::pieces::{Expected, Row, document};
use crate::programs::{HEADERS_AND_PROGRAMS, PROGRAM_LIMITS};
use crate::runs::{CUTS, WORKED};
use crate::shapes::SHAPES;
use crate::walls::{WALLS, Walled};
use amoebot_state::World;
use shape_files::{Form, Parts, Sections, read_head, read_sections, read_sections_from};
use std::alloc::{AllocError, Global};
use std::process::Abort;
use std::test::Fail;
use text_tokens::{ReadRefusal, Refusal, RefusalKind, TokenKind, Tokens};

/// How many entries with old values a document has, and how many without,
/// each -1 where it has no such journal.
fn entries_of(found: &Sections) -> [i64; 2] {
    let full = match found.entries() {
        Some(entries) => entries.entries().len() as i64,
        None => -1,
    };
    let plain = match found.plain() {
        Some(entries) => entries.entries().len() as i64,
        None => -1,
    };
    [full, plain]
}

/// Counts in the order of `Expected`.
fn counts(found: &Sections) -> [i64; 6] {
    let actions = match found.checked() {
        Some(checked) => i64::from(checked.actions()),
        None => -1,
    };
    let bots = match found.world() {
        Some(world) => i64::from(world.bots()),
        None => -1,
    };
    let callers = match found.lists() {
        Some(lists) => i64::from(lists.callers()),
        None => -1,
    };
    let steps = match found.schedule() {
        Some(schedule) => i64::from(schedule.steps()),
        None => -1,
    };
    let [full, plain] = entries_of(found);
    let last = match found.final_world() {
        Some(world) => i64::from(world.bots()),
        None => -1,
    };
    [actions, bots, callers, steps, full.max(plain), last]
}

/// What a document has, or its first fault.
fn answer(alloc: Global, bytes: &[u8], form: Form) -> Result<Expected, AllocError> {
    if bytes.len() > 100_000_000 {
        return Ok(Err((0, RefusalKind::TooLong)));
    }
    match read_sections(alloc, bytes, form) {
        Ok(found) => Ok(Ok(counts(&found))),
        Err(ReadRefusal::Refused(Refusal { line, kind })) => Ok(Err((line, kind))),
        Err(ReadRefusal::NoMemory) => Err(AllocError),
    }
}

/// The same where the document is to be of a least version.
fn answer_from(alloc: Global, bytes: &[u8], form: Form, least: u8) -> Result<Expected, AllocError> {
    if bytes.len() > 100_000_000 || least == 0 {
        return Ok(Err((0, RefusalKind::TooLong)));
    }
    match read_sections_from(alloc, bytes, form, least) {
        Ok(found) => Ok(Ok(counts(&found))),
        Err(ReadRefusal::Refused(Refusal { line, kind })) => Ok(Err((line, kind))),
        Err(ReadRefusal::NoMemory) => Err(AllocError),
    }
}

/// How many entries of each kind a document has, or its first fault,
/// where it is to be of a least version.
fn valued_answer(
    alloc: Global,
    bytes: &[u8],
    form: Form,
    least: u8,
) -> Result<Result<[i64; 2], (u32, RefusalKind)>, AllocError> {
    if bytes.len() > 100_000_000 || least == 0 {
        return Ok(Err((0, RefusalKind::TooLong)));
    }
    match read_sections_from(alloc, bytes, form, least) {
        Ok(found) => Ok(Ok(entries_of(&found))),
        Err(ReadRefusal::Refused(Refusal { line, kind })) => Ok(Err((line, kind))),
        Err(ReadRefusal::NoMemory) => Err(AllocError),
    }
}

/// How many nodes of a world are walls.
fn walls_of(world: &World) -> i64 {
    let mut walls = 0;
    for number in 0..world.area().size() {
        if walls < 20_000 && world.is_wall_number(number) {
            walls += 1;
        }
    }
    walls
}

/// How many amoebots and walls the shape of a document has, and how many walls its last shape;
/// or its first fault.
fn walled_answer(
    alloc: Global,
    bytes: &[u8],
    form: Form,
) -> Result<Result<[i64; 3], (u32, RefusalKind)>, AllocError> {
    if bytes.len() > 100_000_000 {
        return Ok(Err((0, RefusalKind::TooLong)));
    }
    match read_sections(alloc, bytes, form) {
        Ok(found) => {
            let (bots, walls) = match found.world() {
                Some(world) => (i64::from(world.bots()), walls_of(world)),
                None => (-1, -1),
            };
            let last = match found.final_world() {
                Some(world) => walls_of(world),
                None => -1,
            };
            Ok(Ok([bots, walls, last]))
        }
        Err(ReadRefusal::Refused(Refusal { line, kind })) => Ok(Err((line, kind))),
        Err(ReadRefusal::NoMemory) => Err(AllocError),
    }
}

/// Each document of a table is read or refused as the table says.
fn are_read(rt: &impl Abort, alloc: Global, table: &[Row]) -> Result<(), Fail> {
    for (form, template, expected) in table {
        let text = document(alloc, template)?;
        let found = answer(alloc, text.as_bytes(), *form)?;
        assert!(rt; found == *expected, "{text}");
    }
    Ok(())
}

#[test]
fn limits_are_kept_exactly(rt: HostRuntime) -> Result<(), Fail> {
    are_read(&rt, rt.alloc(), &LIMITS)
}

#[test]
fn runs_are_read(rt: HostRuntime) -> Result<(), Fail> {
    are_read(&rt, rt.alloc(), &RUN_FORMS)
}

#[test]
fn other_forms_are_read(rt: HostRuntime) -> Result<(), Fail> {
    are_read(&rt, rt.alloc(), &OTHER_FORMS)
}

#[test]
fn replays_are_read(rt: HostRuntime) -> Result<(), Fail> {
    are_read(&rt, rt.alloc(), &REPLAY_FORMS)
}

#[test]
fn headers_and_programs_are_read(rt: HostRuntime) -> Result<(), Fail> {
    are_read(&rt, rt.alloc(), &HEADERS_AND_PROGRAMS)
}

#[test]
fn shapes_are_read(rt: HostRuntime) -> Result<(), Fail> {
    are_read(&rt, rt.alloc(), &SHAPES)
}

#[test]
fn documents_with_walls_are_read(rt: HostRuntime) -> Result<(), Fail> {
    let alloc = rt.alloc();
    let table: &[Walled] = &WALLS;
    for (form, template, expected) in table {
        let text = document(alloc, template)?;
        let found = walled_answer(alloc, text.as_bytes(), *form)?;
        assert!(&rt; found == *expected, "{text}");
    }
    Ok(())
}

/// All 16,384 nodes of the largest area are walls.
#[test]
fn a_full_area_is_read(rt: HostRuntime) -> Result<(), Fail> {
    let alloc = rt.alloc();
    let mut text = document(alloc, "{HEAD_2}{PROGRAM}shape\narea 0 0 128 128\n")?;
    for y in 0..128 {
        for x in 0..128 {
            let line = format!(in alloc; "wall {x} {y}\n")?;
            text.push_str(&line)?;
        }
    }
    text.push_str("end\n")?;
    assert!(&rt; walled_answer(alloc, text.as_bytes(), Form::Measure)? == Ok([0, 16384, -1]));
    Ok(())
}

#[test]
fn lists_and_schedules_are_read(rt: HostRuntime) -> Result<(), Fail> {
    are_read(&rt, rt.alloc(), &LISTS_AND_SCHEDULES)
}

#[test]
fn journals_are_read(rt: HostRuntime) -> Result<(), Fail> {
    are_read(&rt, rt.alloc(), &JOURNALS)
}

#[test]
fn journals_are_read_by_their_version(rt: HostRuntime) -> Result<(), Fail> {
    let alloc = rt.alloc();
    let table: &[Valued] = &OLD_VALUES;
    for (form, template, expected) in table {
        let text = document(alloc, template)?;
        let found = valued_answer(alloc, text.as_bytes(), *form, 1)?;
        assert!(&rt; found == *expected, "{text}");
    }
    Ok(())
}

#[test]
fn documents_before_the_least_version_are_refused(rt: HostRuntime) -> Result<(), Fail> {
    let alloc = rt.alloc();
    let table: &[LeastRow] = &LEAST_VERSIONS;
    for (least, form, template, expected) in table {
        let text = document(alloc, template)?;
        let found = answer_from(alloc, text.as_bytes(), *form, *least)?;
        assert!(&rt; found == *expected, "{text}");
    }
    Ok(())
}

/// Whether the text has the header of version 3.
fn is_of_version_3(text: &str) -> bool {
    text.starts_with("amoebot 3\n") || text.starts_with("amoebot 03\n")
}

#[test]
fn only_journals_with_old_values_are_read_from_version_3_on(rt: HostRuntime) -> Result<(), Fail> {
    let alloc = rt.alloc();
    let table: &[Valued] = &OLD_VALUES;
    for (form, template, expected) in table {
        let text = document(alloc, template)?;
        let expected = if is_of_version_3(text.as_str()) {
            *expected
        } else {
            Err((1, RefusalKind::BadRange))
        };
        let found = valued_answer(alloc, text.as_bytes(), *form, 3)?;
        assert!(&rt; found == expected, "{text}");
    }
    Ok(())
}

#[test]
fn a_run_and_its_changes_are_read(rt: HostRuntime) -> Result<(), Fail> {
    are_read(&rt, rt.alloc(), &WORKED)
}

#[test]
fn the_first_of_two_faults_is_told(rt: HostRuntime) -> Result<(), Fail> {
    are_read(&rt, rt.alloc(), &TWO_FAULTS)
}

#[test]
fn a_bad_byte_is_one_where_a_section_begins(rt: HostRuntime) -> Result<(), Fail> {
    are_read(&rt, rt.alloc(), &BAD_BYTES)
}

#[test]
fn limits_of_programs_are_kept_exactly(rt: HostRuntime) -> Result<(), Fail> {
    are_read(&rt, rt.alloc(), &PROGRAM_LIMITS)
}

/// The text of a document with this header, so many entries that do nothing, and this behind them.
fn with_entries(alloc: Global, head: &str, entries: u32, behind: &str) -> Result<String, Fail> {
    let mut text = document(alloc, head)?;
    text.push_str(&document(alloc, "{PROGRAM}{SHAPE}journal\n")?)?;
    for place in 0..entries {
        let entry = format!(in alloc; "entry {place} 0 0 0 0 none\n")?;
        text.push_str(&entry)?;
    }
    text.push_str(behind)?;
    text.push_str(&document(alloc, "{FINAL}")?)?;
    Ok(text)
}

fn have_entries(rt: &impl Abort, alloc: Global, head: &str, table: &[Journal]) -> Result<(), Fail> {
    for (entries, behind, expected) in table {
        let text = with_entries(alloc, head, *entries, behind)?;
        let found = answer(alloc, text.as_bytes(), Form::Replay)?;
        assert!(rt; found == *expected, "{behind}");
    }
    Ok(())
}

#[test]
fn a_document_has_at_most_65536_entries(rt: HostRuntime) -> Result<(), Fail> {
    have_entries(&rt, rt.alloc(), "{HEAD}", &LONG_JOURNALS)
}

#[test]
fn a_journal_with_old_values_has_no_more(rt: HostRuntime) -> Result<(), Fail> {
    have_entries(&rt, rt.alloc(), "{HEAD_3}", &ONE_ENTRY_TOO_MANY)
}

/// What is refused of the text before each byte of these lines,
/// and that the whole text is a document.
fn are_cut(rt: &impl Abort, alloc: Global, lines: &[(&str, &str)]) -> Result<(), AllocError> {
    let mut text: Vec<u8> = Vec::new(alloc);
    let mut line = 1u32;
    for (bytes, kinds) in lines {
        for (byte, kind) in bytes.bytes().zip(kinds.bytes()) {
            let kind = if kind == b'x' {
                RefusalKind::Unexpected
            } else {
                RefusalKind::Truncated
            };
            let found = answer(alloc, text.as_slice(), Form::Run)?;
            assert!(rt; found == Err((line, kind)), "{bytes}");
            text.push(byte)?;
        }
        line = line.saturating_add(1);
    }
    assert!(rt; answer(alloc, text.as_slice(), Form::Run)?.is_ok());
    Ok(())
}

#[test]
fn beginnings_of_a_document_are_none(rt: HostRuntime) -> Result<(), Fail> {
    are_cut(&rt, rt.alloc(), &CUTS)?;
    Ok(())
}

#[test]
fn a_header_is_read_alone(rt: HostRuntime) {
    let mut tokens = Tokens::new(b"amoebot 1 program");
    assert!(rt; read_head(&mut tokens).is_ok());
    assert!(rt; tokens.is_next(TokenKind::Word, b"program"));
}

/// A program, a shape and lists, and nothing else.
fn expect_parts(rt: &impl Abort, parts: &Parts) {
    assert!(rt; parts.checked.is_some() && parts.world.is_some() && parts.lists.is_some());
    assert!(rt; parts.schedule.is_none() && parts.final_world.is_none());
    assert!(rt; parts.entries.is_none() && parts.plain.is_none());
}

#[test]
fn a_document_gives_its_parts(rt: HostRuntime) -> Result<(), Fail> {
    let text = document(rt.alloc(), "{HEAD}{PROGRAM}{SHAPE}{LISTS}")?;
    assert!(rt; text.len() <= 1000);
    let found = read_sections(rt.alloc(), text.as_bytes(), Form::Run)
        .ok()
        .ok_or("not read")?;
    expect_parts(&rt, &found.into_parts());
    Ok(())
}
