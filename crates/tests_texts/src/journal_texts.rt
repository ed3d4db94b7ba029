//! Journals read and printed, with old values and without them.

ghost use Rattle.std.specs.Prelude.{◌≡◌, ◌≤◌};
ghost use Rattle.amoebot_state.specs.Limits.{most_vars};

use crate::turns::{MOST_BYTES, at, maybe_at};
use amoebot_state::{Bot, Cell, CellName, Chir, End, Entry, Moved, Patch, PlainEntry, Port};
use journal_text::{
    Counts, Entries, PlainEntries, print_journal, print_plain, read_journal, read_plain,
};
use std::alloc::Global;
use std::test::*;
use text_tokens::RefusalKind::{
    BadByte, BadEntry, BadPlace, BadRange, TooMany, Trailing, Truncated, Unexpected, WordTooLong,
};
use text_tokens::{ReadRefusal, RefusalKind, Text, Tokens};
use tri_lattice::Node;

fn counts(bots: u16, actions: u8, vars: u8) -> Counts
    ensures { result.vars ≡ vars }
{
    Counts {
        bots,
        actions,
        vars,
    }
}

/// The entries of a whole text of a journal with old values.
fn read_text(alloc: Global, text: &[u8], of: Counts) -> Result<Entries, ReadRefusal>
    requires { of.vars ≤ most_vars }
{
    if text.len() > MOST_BYTES {
        return Err(ReadRefusal::NoMemory);
    }
    let mut tokens = Tokens::new(text);
    let entries = read_journal(alloc, &mut tokens, of)?;
    tokens.end(Trailing)?;
    Ok(entries)
}

/// Those of a whole text of a journal without old values.
fn read_plain_text(alloc: Global, text: &[u8], of: Counts) -> Result<PlainEntries, ReadRefusal>
    requires { of.vars ≤ most_vars }
{
    if text.len() > MOST_BYTES {
        return Err(ReadRefusal::NoMemory);
    }
    let mut tokens = Tokens::new(text);
    let entries = read_plain(alloc, &mut tokens, of)?;
    tokens.end(Trailing)?;
    Ok(entries)
}

/// The first fault of a text of a journal without old values, of 3 amoebots,
/// 2 actions and 1 variable.
fn plain_fault(alloc: Global, text: &[u8]) -> Option<ReadRefusal> {
    read_plain_text(alloc, text, counts(3, 2, 1)).err()
}

/// The first fault of a text of a journal with old values or without them, of 1 amoebot,
/// 1 action and no variable.
fn fault_by(alloc: Global, text: &[u8], old: bool) -> Option<ReadRefusal> {
    if old {
        read_text(alloc, text, counts(1, 1, 0)).err()
    } else {
        read_plain_text(alloc, text, counts(1, 1, 0)).err()
    }
}

/// Whether an entry is the other one with old values.
fn tells(entry: &Entry, plain: &PlainEntry) -> bool {
    let own = entry.plain();
    own.caller == plain.caller
        && own.turn == plain.turn
        && own.bot == plain.bot
        && own.action == plain.action
        && own.moved == plain.moved
        && own.patch.pairs() == plain.patch.pairs()
}

fn all_tell(entries: &[Entry], plain: &[PlainEntry]) -> bool {
    if entries.len() != plain.len() {
        return false;
    }
    for (entry, other) in entries.iter().zip(plain.iter()) {
        if !tells(entry, other) {
            return false;
        }
    }
    true
}

/// Whether a text with old values is read and printed as it was,
/// and printed without them as the other one, which is read so.
fn is_kept(alloc: Global, text: &[u8], plain: &[u8], bots: u16, actions: u8, vars: u8) -> bool
    requires { vars ≤ most_vars }
{
    let Ok(read) = read_text(alloc, text, counts(bots, actions, vars)) else {
        return false;
    };
    let Ok(without) = read_plain_text(alloc, plain, counts(bots, actions, vars)) else {
        return false;
    };
    let Ok(printed) = print_journal(alloc, read.entries(), vars) else {
        return false;
    };
    let Ok(bare) = print_plain(alloc, read.entries(), vars) else {
        return false;
    };
    printed.bytes() == text && bare.bytes() == plain && all_tell(read.entries(), without.entries())
}

/// Journals with old values and the same without them; the numbers of amoebots,
/// actions and variables.
static JOURNALS: [(&[u8], &[u8], u16, u8, u8); 13] = [
    (b"journal\nend\n", b"journal\nend\n", 0, 0, 0),
    (
        b"journal\nentry 0 0 0 0 0 expand head 0 spot 3 3 empty to 0 \
        body 0 2 3 2 3 0 + to 3 3 2 3 0 +\nend\n",
        b"journal\nentry 0 0 0 0 0 expand head 0 spot 3 3 0 body 0 3 3 2 3 0 +\nend\n",
        1,
        1,
        0,
    ),
    (
        b"journal\nentry 0 0 0 0 0 expand head 1 spot 2 2 empty to 0 \
        body 0 2 3 2 3 5 - to 2 2 2 3 5 -\nend\n",
        b"journal\nentry 0 0 0 0 0 expand head 1 spot 2 2 0 body 0 2 2 2 3 5 -\nend\n",
        1,
        1,
        0,
    ),
    (
        b"journal\nentry 0 0 0 0 0 push head 0 spot 3 3 1 to 0 \
            body 0 2 3 2 3 0 + to 3 3 2 3 0 + body 1 3 3 4 3 0 + to 4 3 4 3 0 +\nend\n",
        b"journal\nentry 0 0 0 0 0 push head 0 spot 3 3 0 body 0 3 3 2 3 0 + body 1 4 3 4 3 0 +\nend\n",
        2,
        1,
        0,
    ),
    (
        b"journal\nentry 0 0 0 0 0 pull tail 3 spot 2 3 0 to 1 \
            body 0 3 3 2 3 0 + to 3 3 3 3 0 + body 1 1 3 1 3 0 + to 2 3 1 3 0 +\nend\n",
        b"journal\nentry 0 0 0 0 0 pull tail 3 spot 2 3 1 body 0 3 3 3 3 0 + body 1 2 3 1 3 0 +\nend\n",
        2,
        1,
        0,
    ),
    (
        b"journal\nentry 0 0 0 0 0 contract tail spot 2 3 0 to empty \
        body 0 3 3 2 3 0 + to 3 3 3 3 0 +\nend\n",
        b"journal\nentry 0 0 0 0 0 contract tail spot 2 3 empty body 0 3 3 3 3 0 +\nend\n",
        2,
        1,
        0,
    ),
    (
        b"journal\nentry 0 0 0 0 0 none body 1 2 4 2 4 0 + 0 to 2 4 2 4 0 + 2\nend\n",
        b"journal\nentry 0 0 0 0 0 none body 1 2 4 2 4 0 + 2\nend\n",
        2,
        1,
        1,
    ),
    (
        b"journal\nentry 0 0 0 0 0 none body 0 2 3 2 3 0 + 0 to 2 3 2 3 0 + 1\n\
            entry 1 1 1 1 0 none body 1 3 3 3 3 0 + 0 to 3 3 3 3 0 + 1\nend\n",
        b"journal\nentry 0 0 0 0 0 none body 0 2 3 2 3 0 + 1\n\
        entry 1 1 1 1 0 none body 1 3 3 3 3 0 + 1\nend\n",
        2,
        1,
        1,
    ),
    (
        b"journal\n\
            entry 0 0 0 0 0 pull tail 3 spot 2 3 0 to 1 \
            body 0 3 3 2 3 0 + 0 to 3 3 3 3 0 + 0 body 1 1 3 1 3 0 + 0 to 2 3 1 3 0 + 0\n\
            entry 1 1 1 1 1 none body 1 2 3 1 3 0 + 0 to 2 3 1 3 0 + 1\nend\n",
        b"journal\n\
            entry 0 0 0 0 0 pull tail 3 spot 2 3 1 body 0 3 3 3 3 0 + 0 body 1 2 3 1 3 0 + 0\n\
            entry 1 1 1 1 1 none body 1 2 3 1 3 0 + 1\nend\n",
        2,
        2,
        1,
    ),
    (
        b"journal\nentry 0 1 0 1 0 expand head 0 spot 7 6 empty to 1 body 1 6 6 6 6 0 + to 7 6 6 6 0 +\n\
            entry 1 0 0 0 0 expand head 0 spot 2 1 empty to 0 body 0 1 1 1 1 0 + to 2 1 1 1 0 +\nend\n",
        b"journal\nentry 0 1 0 1 0 expand head 0 spot 7 6 1 body 1 7 6 6 6 0 +\n\
            entry 1 0 0 0 0 expand head 0 spot 2 1 0 body 0 2 1 1 1 0 +\nend\n",
        2,
        1,
        0,
    ),
    (
        b"journal\n\
            entry 0 15 65535 4095 31 contract head spot -9999 9999 4095 to empty spot 0 -1 empty to 4095 \
            body 4095 9999 -9999 9999 9999 0 + to -9999 -9999 9999 9999 5 -\nend\n",
        b"journal\n\
            entry 0 15 65535 4095 31 contract head spot -9999 9999 empty \
            spot 0 -1 4095 body 4095 -9999 -9999 9999 9999 5 -\n\
            end\n",
        4096,
        32,
        0,
    ),
    (
        b"journal\nentry 0 0 0 0 0 none \
            body 0 -1 0 -1 0 0 + 255 7 6 5 4 3 2 1 to -1 0 -1 0 0 + 1 2 3 4 5 6 7 255\nend\n",
        b"journal\nentry 0 0 0 0 0 none body 0 -1 0 -1 0 0 + 1 2 3 4 5 6 7 255\nend\n",
        1,
        1,
        8,
    ),
    (
        b"journal\nentry 0 0 0 0 0 none \
            spot 0 0 1 to 0 spot 0 0 0 to 1 spot 0 0 1 to 0 spot 0 0 0 to 1 spot 0 0 1 to 0 \
            spot 0 0 0 to 1 spot 0 0 1 to 0 spot 0 0 0 to 1 spot 0 0 1 to 0 spot 0 0 0 to 1\nend\n",
        b"journal\nentry 0 0 0 0 0 none \
            spot 0 0 0 spot 0 0 1 spot 0 0 0 spot 0 0 1 spot 0 0 0 \
            spot 0 0 1 spot 0 0 0 spot 0 0 1 spot 0 0 0 spot 0 0 1\nend\n",
        2,
        1,
        0,
    ),
];

#[test]
fn journals_of_runs_are_read_and_printed_with_old_values_and_without(rt: HostRuntime) {
    for (text, plain, bots, actions, vars) in &JOURNALS {
        assert!(rt; *vars <= 8);
        assert!(rt; is_kept(rt.alloc(), text, plain, *bots, *actions, *vars));
    }
}

/// The expansion of an amoebot to the east.
fn expansion() -> Entry {
    let resting = Bot {
        head: Node { x: 2, y: 3 },
        tail: Node { x: 2, y: 3 },
        rot: 0,
        chir: Chir::Plus,
        mem: [0; 8],
    };
    let stretched = Bot {
        head: Node { x: 3, y: 3 },
        ..resting
    };
    let mut patch = Patch::new();
    patch.push(
        CellName::Spot(Node { x: 3, y: 3 }),
        Cell::Spot(None),
        Cell::Spot(Some(0)),
    );
    patch.push(
        CellName::Body(0),
        Cell::Body(resting),
        Cell::Body(stretched),
    );
    Entry {
        caller: 0,
        turn: 0,
        bot: 0,
        action: 0,
        moved: Moved::Expand(Port {
            end: End::Head,
            dir: 0,
        }),
        patch,
    }
}

/// The text of a journal with this entry alone.
fn text_of_one(alloc: Global, entry: Entry, old: bool) -> Option<Text> {
    let mut entries = Vec::new(alloc);
    if entries.push(entry).is_err() {
        return None;
    }
    if old {
        print_journal(alloc, entries.as_slice(), 0).ok()
    } else {
        print_plain(alloc, entries.as_slice(), 0).ok()
    }
}

#[test]
fn an_expansion_is_printed_with_its_old_values(rt: HostRuntime) -> Result<(), Fail> {
    let text = text_of_one(rt.alloc(), expansion(), true).ok_or("no text")?;
    assert!(rt;
        text.bytes()
            == b"journal\n\
            entry 0 0 0 0 0 expand head 0 spot 3 3 empty to 0 body 0 2 3 2 3 0 + to 3 3 2 3 0 +\nend\n"
                .as_slice()
    );
    Ok(())
}

#[test]
fn an_expansion_is_printed_without_its_old_values(rt: HostRuntime) -> Result<(), Fail> {
    let text = text_of_one(rt.alloc(), expansion(), false).ok_or("no text")?;
    assert!(rt;
        text.bytes()
            == b"journal\nentry 0 0 0 0 0 expand head 0 spot 3 3 0 body 0 3 3 2 3 0 +\nend\n".as_slice()
    );
    Ok(())
}

#[test]
fn an_expansion_is_read_with_its_old_values(rt: HostRuntime) -> Result<(), Fail> {
    let text = b"journal\n\
        entry 0 0 0 0 0 expand head 0 spot 3 3 empty to 0 body 0 2 3 2 3 0 + to 3 3 2 3 0 +\nend\n"
        .as_slice();
    let read = read_text(rt.alloc(), text, counts(1, 1, 0))
        .ok()
        .ok_or("not read")?;
    assert!(rt; read.entries().len() == 1);
    assert!(rt; read.entries()[0].patch.triples() == expansion().patch.triples());
    Ok(())
}

#[test]
fn an_expansion_is_read_without_old_values(rt: HostRuntime) -> Result<(), Fail> {
    let text =
        b"journal\nentry 0 0 0 0 0 expand head 0 spot 3 3 0 body 0 3 3 2 3 0 +\nend\n".as_slice();
    let read = read_plain_text(rt.alloc(), text, counts(1, 1, 0))
        .ok()
        .ok_or("not read")?;
    assert!(rt; read.entries().len() == 1);
    assert!(rt; tells(&expansion(), &read.entries()[0]));
    Ok(())
}

/// A text, its first fault where texts have old values, and where they have none.
static FAULTS_BY_VERSION: [(
    &[u8],
    Option<(u32, RefusalKind)>,
    Option<(u32, RefusalKind)>,
); 27] = [
    (b"journal\nentry 0 0 0 0 0 none\nend", None, None),
    (
        b"journal\nentry 0 0 0 0 0 expand head 0 spot 3 3 empty to 0 body 0 2 3 2 3 0 + to 3 3 2 3 0 +\nend",
        None,
        Some((2, Unexpected)),
    ),
    (
        b"journal\nentry 0 0 0 0 0 expand head 0 spot 3 3 0\nbody 0 3 3 2 3 0 +\nend",
        Some((3, Unexpected)),
        None,
    ),
    (
        b"journal\nentry 0 0 0 0 0 expand head 0 spot 3 3 empty to 0 body 0 2 3 2 3 0 +\nend",
        Some((3, Unexpected)),
        Some((2, Unexpected)),
    ),
    (
        b"journal\nentry 0 0 0 0 0 expand head 0 spot 3 3 empty to\nend",
        Some((3, Unexpected)),
        Some((2, Unexpected)),
    ),
    (
        b"journal\nentry 0 0 0 0 0 expand head 0 spot 3 3\nto 0 end",
        Some((3, Unexpected)),
        Some((3, Unexpected)),
    ),
    (
        b"journal\nentry 0 0 0 0 0 expand head 0 spot 3 3 empty to\nto 0 end",
        Some((3, Unexpected)),
        Some((2, Unexpected)),
    ),
    (
        b"journal\nentry 0 0 0 0 0 expand head 0 spot 3 3 empty\nTo 0 end",
        Some((3, Unexpected)),
        Some((3, Unexpected)),
    ),
    (
        b"journal\nentry 0 0 0 0 0 expand head 0 spot 3 3 1\nto 0 end",
        Some((2, BadEntry)),
        Some((2, BadEntry)),
    ),
    (
        b"journal\nentry 0 0 0 0 0 expand head 0 spot 3 3 empty to 1\nend",
        Some((2, BadEntry)),
        Some((2, Unexpected)),
    ),
    (
        b"journal\nentry 0 0 0 0 0 none body 1 2 3 2 3 0 +\nto 3 3 2 3 0 +\nend",
        Some((2, BadEntry)),
        Some((2, BadEntry)),
    ),
    (
        b"journal\nentry 1 0 0 0 0 none spot 3 3 1 to 0\nend",
        Some((2, BadPlace)),
        Some((2, BadPlace)),
    ),
    (
        b"journal\nentry 0 0 0 0 0 none body 0 2 3 2 3\n6 + to 3 3 2 3 0 +\nend",
        Some((3, BadRange)),
        Some((3, BadRange)),
    ),
    (
        b"journal\nentry 0 0 0 0 0 none body 0\n10000 3 2 3 0 + to 3 3 2 3 0 +\nend",
        Some((3, BadRange)),
        Some((3, BadRange)),
    ),
    (
        b"journal\nentry 0 0 0 0 0 none body 0 2 3 2 3 0 + to 3 3 2 3\n6 +\nend",
        Some((3, BadRange)),
        Some((2, Unexpected)),
    ),
    (
        b"journal\nentry 0 0 0 0 0 expand head 0 spot 3 3 empty to\n",
        Some((3, Truncated)),
        Some((2, Unexpected)),
    ),
    (
        b"journal\nentry 0 0 0 0 0 expand head 0 spot 3 3 1 to 0\nfoo",
        Some((2, BadEntry)),
        Some((2, BadEntry)),
    ),
    (
        b"journal\nentry 1 0 0 0 0 expand head 0 spot 3 3 1\nend",
        Some((3, Unexpected)),
        Some((2, BadPlace)),
    ),
    (
        b"journal\nentry 1 0 0 0 0 expand head 0 spot 3 3 1\n",
        Some((3, Truncated)),
        Some((2, BadPlace)),
    ),
    (
        b"journal\nentry 0 0 0 0 0 expand head 0 spot 3 3 1\n$",
        Some((3, BadByte)),
        Some((2, BadEntry)),
    ),
    (
        b"journal\nentry 1 0 0 0 0 none \
            spot 1 1 1 to 1 spot 1 1 1 to 1 spot 1 1 1 to 1 spot 1 1 1 to 1 spot 1 1 1 to 1 \
            spot 1 1 1 to 1 spot 1 1 1 to 1 spot 1 1 1 to 1 spot 1 1 1 to 1 spot 1 1 1 to 1\n\
            spot 1 1 empty to 0 end",
        Some((3, TooMany)),
        Some((2, BadPlace)),
    ),
    (
        b"journal\nentry 0 0 0 0 0 none \
            spot 1 1 empty spot 1 1 empty spot 1 1 empty spot 1 1 empty spot 1 1 empty \
            spot 1 1 empty spot 1 1 empty spot 1 1 empty spot 1 1 empty spot 1 1 empty\nto end",
        Some((2, Unexpected)),
        Some((3, Unexpected)),
    ),
    (
        b"journal\nentry 0 0 0 0 0 expand head 0 spot 3 3 empty to\n1000000000",
        Some((3, WordTooLong)),
        Some((2, Unexpected)),
    ),
    (
        b"journal\nentry 0 0 0 0 0 expand head 0 spot 3 3 empty to\n-1",
        Some((3, Unexpected)),
        Some((2, Unexpected)),
    ),
    (
        b"journal\nentry 0 0 0 0 0 none \
            spot 1 1 empty to empty spot 1 1 empty to empty spot 1 1 empty to empty spot 1 1 empty to empty \
            spot 1 1 empty to empty spot 1 1 empty to empty spot 1 1 empty to empty spot 1 1 empty to empty \
            spot 1 1 empty to empty spot 1 1 empty to empty\nend",
        None,
        Some((2, Unexpected)),
    ),
    (
        b"journal\nentry 0 0 0 0 0 none \
            spot 1 1 empty to empty spot 1 1 empty to empty spot 1 1 empty to empty spot 1 1 empty to empty \
            spot 1 1 empty to empty spot 1 1 empty to empty spot 1 1 empty to empty spot 1 1 empty to empty \
            spot 1 1 empty to empty spot 1 1 empty to empty\nspot 1 1 empty to empty end",
        Some((3, TooMany)),
        Some((2, Unexpected)),
    ),
    (
        b"journal\nentry 0 0 0 0 0 none spot 3 3 0 to empty\nfoo",
        Some((3, Unexpected)),
        Some((2, Unexpected)),
    ),
];

#[test]
fn old_values_stand_exactly_in_texts_that_have_them(rt: HostRuntime) {
    for (text, with_old, without) in &FAULTS_BY_VERSION {
        assert!(rt; fault_by(rt.alloc(), text, true) == maybe_at(*with_old));
        assert!(rt; fault_by(rt.alloc(), text, false) == maybe_at(*without));
    }
}

/// Texts without old values, each with the line and the kind of its first fault.
static PLAIN_FAULTS: [(&[u8], u32, RefusalKind); 58] = [
    (b"", 1, Truncated),
    (b"\n\n# entry", 3, Truncated),
    (b"journal", 1, Truncated),
    (b"journal\n", 2, Truncated),
    (b"end", 1, Unexpected),
    (b"Journal\nend", 1, Unexpected),
    (b"journal\nEnd", 2, Unexpected),
    (b"journal\njournal", 2, Unexpected),
    (b"journal end\nend", 2, Trailing),
    (b"journal end\nfinal", 2, Trailing),
    (b"journal end\n,", 2, BadByte),
    (b"journal end\nabcdefghijklmnopqrstuvwxy", 2, WordTooLong),
    (b"journal\n:", 2, BadByte),
    (b"journal\nentry\nentry", 3, Unexpected),
    (b"journal\nentry -0", 2, Unexpected),
    (b"journal\nentry 0 0 0 0\nnone end", 3, Unexpected),
    (b"journal\nentry 0 0 0 0 0\n0 none end", 3, Unexpected),
    (
        b"journal\nentry 0000000000 0 0 0 0 none end",
        2,
        WordTooLong,
    ),
    (b"journal\nentry 000000000 0 0 0 0 none\n", 3, Truncated),
    (b"journal\nentry 0 0 0 0 0 expand\n0 end", 3, Unexpected),
    (
        b"journal\nentry 0 0 0 0 0 expand head\nhead end",
        3,
        Unexpected,
    ),
    (b"journal\nentry 0 0 0 0 0 expand tail\n6 end", 3, BadRange),
    (b"journal\nentry 0 0 0 0 0 push head\n6 end", 3, BadRange),
    (
        b"journal\nentry 0 0 0 0 0 pull head\n999999999 end",
        3,
        BadRange,
    ),
    (b"journal\nentry 0 0 0 0 0 contract\n0 end", 3, Unexpected),
    (
        b"journal\nentry 0 0 0 0 0 contract head\n0 end",
        3,
        Unexpected,
    ),
    (b"journal\nentry 0 0 0 0 0 none\nempty end", 3, Unexpected),
    (
        b"journal\nentry 0 0 0 0 0 none spot\n10000 0 0 end",
        3,
        BadRange,
    ),
    (
        b"journal\nentry 0 0 0 0 0 none spot 0\n- 10000 0 end",
        3,
        BadRange,
    ),
    (
        b"journal\nentry 0 0 0 0 0 none spot 0 -\n10000 0 end",
        3,
        BadRange,
    ),
    (
        b"journal\nentry 0 0 0 0 0 none spot 0 +\n1 0 end",
        2,
        Unexpected,
    ),
    (
        b"journal\nentry 0 0 0 0 0 none spot 0 0\nspot 0 0 0 end",
        3,
        Unexpected,
    ),
    (
        b"journal\nentry 0 0 0 0 0 none spot 0 0 -\n1 end",
        2,
        Unexpected,
    ),
    (
        b"journal\nentry 0 0 0 0 0 none body\nempty end",
        3,
        Unexpected,
    ),
    (
        b"journal\nentry 0 0 0 0 0 none body 0\n10000 0 0 0 0 + 0 end",
        3,
        BadRange,
    ),
    (
        b"journal\nentry 0 0 0 0 0 none body 0 0 0 0\n-10000 0 + 0 end",
        3,
        BadRange,
    ),
    (
        b"journal\nentry 0 0 0 0 0 none body 0 0 0 0 0\n6 + 0 end",
        3,
        BadRange,
    ),
    (
        b"journal\nentry 0 0 0 0 0 none body 0 0 0 0 0 0\n0 end",
        3,
        Unexpected,
    ),
    (
        b"journal\nentry 0 0 0 0 0 none body 0 0 0 0 0 0 +\n256 end",
        3,
        BadRange,
    ),
    (
        b"journal\nentry 0 0 0 0 0 none body 0 0 0 0 0 0 +\nend",
        3,
        Unexpected,
    ),
    (
        b"journal\nentry 0 0 0 0 0 none body 0 0 0 0 0 0 + 0\n0 end",
        3,
        Unexpected,
    ),
    (b"journal\nentry\n1 0 0 0 0 none end", 2, BadPlace),
    (
        b"journal\nentry 0 0 0 0 0 none\nentry 0 0 1 0 0 none end",
        3,
        BadPlace,
    ),
    (
        b"journal\nentry 0 0 0 0 0 none\nentry 2 0 1 0 0 none end",
        3,
        BadPlace,
    ),
    (b"journal\nentry\n0 16 0 0 0 none end", 2, BadEntry),
    (b"journal\nentry 0 0\n65536 0 0 none end", 2, BadEntry),
    (b"journal\nentry 0 0 0\n3 0 none end", 2, BadEntry),
    (b"journal\nentry 0 0 0 0\n2 none end", 2, BadEntry),
    (
        b"journal\nentry 0 0 0 0 0 none\nspot 0 0 3 end",
        2,
        BadEntry,
    ),
    (
        b"journal\nentry 0 0 0 0 0 none\nbody 3 0 0 0 0 0 + 0 end",
        2,
        BadEntry,
    ),
    (b"journal\nentry 1 16 0 3 2 none\nend", 2, BadPlace),
    (b"journal\nentry 1 16 0 0 0 none\n,", 2, BadPlace),
    (b"journal\nentry 0 16 0 0 0 none\n", 2, BadEntry),
    (b"journal\nentry 0 16 0 0 0 none\n0000000001", 2, BadEntry),
    (
        b"journal\nentry 1 16 0 0 0 none\nspot 0 10000 0",
        3,
        BadRange,
    ),
    (
        b"journal\nentry 1 16 0 0 0 none\nspot 0 0 0\nbody ,",
        4,
        BadByte,
    ),
    (
        b"journal\nentry 1 16 0 0 0 none \
            spot 0 0 0 spot 0 0 0 spot 0 0 0 spot 0 0 0 spot 0 0 0 \
            spot 0 0 0 spot 0 0 0 spot 0 0 0 spot 0 0 0 spot 0 0 0\nbody 0",
        3,
        TooMany,
    ),
    (
        b"journal\nentry 1 16 0 0 0 none \
            spot 0 0 0 spot 0 0 0 spot 0 0 0 spot 0 0 0 spot 0 0 0 \
            spot 0 0 0 spot 0 0 0 spot 0 0 0 spot 0 0 0 spot 0 0 0\n+",
        2,
        BadPlace,
    ),
];

#[test]
fn plain_journals_are_refused_at_their_first_fault(rt: HostRuntime) {
    for (text, line, kind) in &PLAIN_FAULTS {
        assert!(rt; plain_fault(rt.alloc(), text) == at(*line, *kind));
    }
}

#[test]
fn the_first_part_of_a_journal_is_none(rt: HostRuntime) {
    let text =
        b"journal\nentry 0 0 0 0 0 expand head 0 spot 3 3 0 body 0 3 3 2 3 0 +\nend".as_slice();
    assert!(rt; fault_by(rt.alloc(), text, false).is_none());
    for len in 0..text.len() {
        assert!(rt; fault_by(rt.alloc(), &text[..len], false).is_some());
    }
}

#[test]
fn nor_is_the_first_part_of_one_with_old_values(rt: HostRuntime) {
    let text = b"journal\nentry 0 0 0 0 0 none spot 3 3 empty to 0 \
        body 0 2 3 2 3 0 + to 3 3 2 3 0 +\nend"
        .as_slice();
    assert!(rt; fault_by(rt.alloc(), text, true).is_none());
    for len in 0..text.len() {
        assert!(rt; fault_by(rt.alloc(), &text[..len], true).is_some());
    }
}

/// The text of so many entries that do nothing.
fn long_text(alloc: Global, count: u32) -> Option<Text> {
    let mut entries = Vec::new(alloc);
    for _entry in 0..count {
        let entry = Entry {
            caller: 0,
            turn: 0,
            bot: 0,
            action: 0,
            moved: Moved::None,
            patch: Patch::new(),
        };
        if entries.push(entry).is_err() {
            return None;
        }
    }
    print_journal(alloc, entries.as_slice(), 0).ok()
}

#[test]
fn a_journal_with_old_values_has_at_most_65536_entries(rt: HostRuntime) -> Result<(), Fail> {
    let full = long_text(rt.alloc(), 65_536).ok_or("no text")?;
    let read = read_text(rt.alloc(), full.bytes(), counts(1, 1, 0))
        .ok()
        .ok_or("not read")?;
    assert!(rt; read.entries().len() == 65_536);
    let longer = long_text(rt.alloc(), 65_537).ok_or("no text")?;
    assert!(rt; fault_by(rt.alloc(), longer.bytes(), true) == at(65_538, TooMany));
    Ok(())
}

#[test]
fn a_plain_journal_has_at_most_65536_entries(rt: HostRuntime) -> Result<(), Fail> {
    let full = long_text(rt.alloc(), 65_536).ok_or("no text")?;
    let read = read_plain_text(rt.alloc(), full.bytes(), counts(1, 1, 0))
        .ok()
        .ok_or("not read")?;
    assert!(rt; read.entries().len() == 65_536);
    let longer = long_text(rt.alloc(), 65_537).ok_or("no text")?;
    assert!(rt; fault_by(rt.alloc(), longer.bytes(), false) == at(65_538, TooMany));
    Ok(())
}

#[test]
fn no_entry_has_an_empty_section(rt: HostRuntime) -> Result<(), Fail> {
    let journal = print_journal(rt.alloc(), &[], 8).ok().ok_or("no text")?;
    assert!(rt; journal.bytes() == b"journal\nend\n".as_slice());
    let plain = print_plain(rt.alloc(), &[], 8).ok().ok_or("no text")?;
    assert!(rt; plain.bytes() == b"journal\nend\n".as_slice());
    Ok(())
}
