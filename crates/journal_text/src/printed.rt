//! The sections `journal` and `turns` printed.

ghost use Rattle.std.specs.Prelude.{◌≡◌, ◌<◌, ◌≤◌, ◌++◌, length, map, if◌then◌else◌, IfOk, OnOk, Some, None};
ghost use Rattle.std.specs.List.{enumerate_from, flat_map};
ghost use Rattle.text_tokens.specs.Lines.{line_text, lines_text, spaced};
ghost use Rattle.amoebot_state.specs.{Limits.{most_vars}, Steps.{plain_entry}};
ghost use Rattle.journal_text.specs.Texts.{caller_lines, cell_words, change_by, change_words, entry_numbers};
ghost use Rattle.journal_text.specs.Texts.{entry_words, failure_word, journal_text, mark_words, moved_words};
ghost use Rattle.journal_text.specs.Texts.{old_words, plain_text, turn_words, turns_text, value_words};
ghost use Rattle.journal_text.specs.Texts.{written_by, written_full, written_lines, written_text};
ghost use Rattle.claim_core.specs.Turns.{marks_of};

use amoebot_state::{Cell, CellName, Entry, Failure, Moved, NoMemory};
use claim_core::{Mark, Marks};
use shape_text::{put_bot, put_node, put_port};
use std::alloc::{AllocError, Global};
use text_tokens::{Lines, Text};

/// The section `journal` with old values: the entries, numbered from 0,
/// with the values of so many variables, at most 8.
pub fn print_journal(alloc: Global, entries: &[Entry], vars: u8) -> Result<Text, NoMemory>
    requires { vars ≤ most_vars }
    ensures { IfOk result (λ text. text ≡ journal_text vars entries.now) }
{
    let mut lines = Lines::new(alloc);
    put_journal(&mut lines, entries, vars)?;
    Ok(lines.text())
}

/// The same without old values.
pub fn print_plain(alloc: Global, entries: &[Entry], vars: u8) -> Result<Text, NoMemory>
    requires { vars ≤ most_vars }
    ensures { IfOk result (λ text. text ≡ plain_text vars (map plain_entry entries.now)) }
{
    let mut lines = Lines::new(alloc);
    put_plain(&mut lines, entries, vars)?;
    Ok(lines.text())
}

/// The section `turns`: by rising caller, then by rising turn.
pub fn print_turns(alloc: Global, marks: &Marks) -> Result<Text, NoMemory>
    ensures { IfOk result (λ text. text ≡ turns_text marks.now) }
{
    let mut lines = Lines::new(alloc);
    put_turns(&mut lines, marks)?;
    Ok(lines.text())
}

/// Adds the section `journal` with old values to a text.
pub fn put_journal(lines: &mut Lines, entries: &[Entry], vars: u8) -> Result<(), AllocError>
    requires { vars ≤ most_vars }
    ensures { OnOk result (lines.new ≡ lines.old ++ journal_text vars entries.now) }
{
    put_section(lines, entries, vars, true)
}

/// The same without old values.
pub fn put_plain(lines: &mut Lines, entries: &[Entry], vars: u8) -> Result<(), AllocError>
    requires { vars ≤ most_vars }
    ensures { OnOk result (lines.new ≡ lines.old ++ plain_text vars (map plain_entry entries.now)) }
{
    put_section(lines, entries, vars, false)
}

/// Adds the section `turns` to a text.
pub fn put_turns(lines: &mut Lines, marks: &Marks) -> Result<(), AllocError>
    ensures { OnOk result (lines.new ≡ lines.old ++ turns_text marks.now) }
{
    lines.open_section("turns")?;
    put_callers(lines, marks)?;
    lines.close_section()
}

fn put_section(lines: &mut Lines, entries: &[Entry], vars: u8, old: bool) -> Result<(), AllocError>
    requires { vars ≤ most_vars }
    ensures { OnOk result (lines.new ≡ lines.old ++ written_text vars (map (written_by old) entries.now)) }
{
    lines.open_section("journal")?;
    put_entries(lines, entries, vars, old)?;
    lines.close_section()
}

fn put_entries(lines: &mut Lines, entries: &[Entry], vars: u8, old: bool) -> Result<(), AllocError>
    requires { vars ≤ most_vars }
    ensures { OnOk result (
        lines.new ≡ lines.old ++ lines_text (written_lines vars (map (written_by old) entries.now))) }
{
    for (place, entry) in entries.iter().enumerate() {
        put_entry(lines, place, entry, vars, old)?;
    }
    Ok(())
}

fn put_entry(
    lines: &mut Lines,
    place: usize,
    entry: &Entry,
    vars: u8,
    old: bool,
) -> Result<(), AllocError>
    requires { vars ≤ most_vars }
    ensures { OnOk result (
        lines.new ≡ lines.old ++ line_text (entry_words vars (place, written_by old entry.now))) }
{
    lines.begin("entry")?;
    put_numbers(lines, place, entry)?;
    put_moved(lines, entry.moved)?;
    put_changes(lines, entry.patch.triples(), vars, old)?;
    lines.end()
}

/// The five numbers with which an entry begins.
fn put_numbers(lines: &mut Lines, place: usize, entry: &Entry) -> Result<(), AllocError>
    ensures { OnOk result (lines.new ≡ lines.old ++ spaced (entry_numbers place (written_full entry.now))) }
{
    lines.unsigned(place as u64)?;
    lines.unsigned(u64::from(entry.caller))?;
    lines.unsigned(u64::from(entry.turn))?;
    lines.unsigned(u64::from(entry.bot))?;
    lines.unsigned(u64::from(entry.action))
}

fn put_callers(lines: &mut Lines, marks: &Marks) -> Result<(), AllocError>
    ensures { OnOk result (lines.new ≡ lines.old ++ lines_text (
        flat_map caller_lines (enumerate_from 0 marks.now.marks))) }
{
    for caller in 0..marks.callers() {
        put_caller(lines, marks, caller)?;
    }
    Ok(())
}

fn put_caller(lines: &mut Lines, marks: &Marks, caller: u8) -> Result<(), AllocError>
    requires { caller < length marks.now.marks }
    ensures { OnOk result (
        lines.new ≡ lines.old ++ lines_text (caller_lines (caller, marks_of marks.now caller))) }
{
    for turn in 0..marks.count(caller) {
        put_turn(lines, caller, turn, marks.mark(caller, turn))?;
    }
    Ok(())
}

fn put_turn(lines: &mut Lines, caller: u8, turn: u32, mark: Mark) -> Result<(), AllocError>
    ensures { OnOk result (lines.new ≡ lines.old ++ line_text (turn_words caller (turn, mark))) }
{
    lines.begin("turn")?;
    lines.unsigned(u64::from(caller))?;
    lines.unsigned(u64::from(turn))?;
    put_mark(lines, mark)?;
    lines.end()
}

fn put_mark(lines: &mut Lines, mark: Mark) -> Result<(), AllocError>
    ensures { OnOk result (lines.new ≡ lines.old ++ spaced (mark_words mark)) }
{
    match mark {
        Mark::Done { place } => {
            lines.word("done")?;
            lines.unsigned(u64::from(place))
        }
        Mark::Idle { place } => {
            lines.word("idle")?;
            lines.unsigned(u64::from(place))
        }
        Mark::Failed { failure, place } => {
            lines.word("failed")?;
            lines.word(failure_word(failure))?;
            lines.unsigned(u64::from(place))
        }
        Mark::Busy {
            cell,
            by_caller,
            by_turn,
            by_bot,
            place,
        } => {
            lines.word("busy")?;
            put_cell(lines, cell)?;
            lines.word("by")?;
            lines.unsigned(u64::from(by_caller))?;
            lines.unsigned(u64::from(by_turn))?;
            lines.unsigned(u64::from(by_bot))?;
            lines.word("place")?;
            lines.unsigned(u64::from(place))
        }
    }
}

/// The cells with their values, with those before or without them.
fn put_changes(
    lines: &mut Lines,
    changes: &[(CellName, Cell, Cell)],
    vars: u8,
    old: bool,
) -> Result<(), AllocError>
    requires { vars ≤ most_vars }
    ensures { OnOk result (lines.new ≡ lines.old ++ spaced (
        flat_map (change_words vars) (map (change_by old) changes.now))) }
{
    for (name, before, after) in changes {
        put_cell(lines, *name)?;
        put_old_value(lines, before, vars, old)?;
        put_value(lines, after, vars)?;
    }
    Ok(())
}

/// The value before and the word behind it, in texts with old values.
fn put_old_value(lines: &mut Lines, before: &Cell, vars: u8, old: bool) -> Result<(), AllocError>
    requires { vars ≤ most_vars }
    ensures { OnOk result (
        lines.new ≡ lines.old ++ spaced (old_words vars (if old then Some before.now else None))) }
{
    if old {
        put_value(lines, before, vars)?;
        lines.word("to")?;
    }
    Ok(())
}

fn put_cell(lines: &mut Lines, name: CellName) -> Result<(), AllocError>
    ensures { OnOk result (lines.new ≡ lines.old ++ spaced (cell_words name)) }
{
    match name {
        CellName::Spot(node) => {
            lines.word("spot")?;
            put_node(lines, node)
        }
        CellName::Body(id) => {
            lines.word("body")?;
            lines.unsigned(u64::from(id))
        }
    }
}

fn put_value(lines: &mut Lines, value: &Cell, vars: u8) -> Result<(), AllocError>
    requires { vars ≤ most_vars }
    ensures { OnOk result (lines.new ≡ lines.old ++ spaced (value_words vars value.now)) }
{
    match value {
        Cell::Spot(Some(id)) => lines.unsigned(u64::from(*id)),
        Cell::Spot(None) => lines.word("empty"),
        Cell::Body(bot) => put_bot(lines, bot, vars),
    }
}

fn put_moved(lines: &mut Lines, moved: Moved) -> Result<(), AllocError>
    ensures { OnOk result (lines.new ≡ lines.old ++ spaced (moved_words moved)) }
{
    match moved {
        Moved::None => lines.word("none"),
        Moved::Expand(port) => {
            lines.word("expand")?;
            put_port(lines, port)
        }
        Moved::Contract(end) => {
            lines.word("contract")?;
            lines.word(end.word())
        }
        Moved::Push(port) => {
            lines.word("push")?;
            put_port(lines, port)
        }
        Moved::Pull(port) => {
            lines.word("pull")?;
            put_port(lines, port)
        }
    }
}

fn failure_word(failure: Failure) -> &'static str
    ensures { result.now ≡ failure_word failure }
{
    match failure {
        Failure::NoPort => "no_port",
        Failure::NoNeighbour => "no_neighbour",
        Failure::OutOfRange => "out_of_range",
        Failure::Occupied => "occupied",
        Failure::NotContracted => "not_contracted",
        Failure::NotExpanded => "not_expanded",
        Failure::PeerNotExpanded => "peer_not_expanded",
        Failure::PeerNotContracted => "peer_not_contracted",
        Failure::Edge => "edge",
        Failure::WouldSplit => "would_split",
        Failure::NoChoice => "no_choice",
        Failure::Blocked => "blocked",
    }
}
