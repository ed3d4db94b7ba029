//! The section `journal` read.

ghost use Rattle.std.specs.Prelude.{◌≡◌, ◌≢◌, ◌<◌, ◌≤◌, [], true, false, length, map, option_map, nat_lt};
ghost use Rattle.std.specs.{Prelude.{if◌then◌else◌, IfErr, IfOk, IfSome, Ok, Err, Some, None}, Bool.{OnTrue}};
ghost use Rattle.std.specs.List.{flat_map, list_all};
ghost use Rattle.text_tokens.specs.{Cursor.{next_passes}, Steps.{Gives, ReadsOf, TellsOf, another}};
ghost use Rattle.text_tokens.specs.declared.refusal.ReadRefusal.TheVariants.{NoMemory, Refused};
ghost use Rattle.text_tokens.specs.declared.refusal.RefusalKind.TheVariants.{BadEntry};
ghost use Rattle.amoebot_state.specs.Limits.{most_vars, most_pairs};
ghost use Rattle.amoebot_state.specs.declared.cell.Cell.TheVariants as cell;
ghost use Rattle.claim_core.specs.Limits.{most_turns};
ghost use Rattle.journal_text.specs.Journals.{IsJournal, IsPlainJournal, WrittenEntry};
ghost use Rattle.journal_text.specs.Journals as spec;
ghost use Rattle.journal_text.specs.Readers as reader;
ghost use Rattle.journal_text.specs.Views as view;

use crate::forms::Form;
use amoebot_state::{Bot, Cell, CellName, End, Entry, MOST_PAIRS, Moved, PlainEntry, Port};
use arrayvec::ArrayVec;
use shape_text::{Reading, read_bot, read_end, read_node, read_port, read_word, read_word_within};
use std::alloc::Global;
use std::marker::Model;
use text_tokens::{RefusalKind, TokenKind, Tokens, number, refused};
use tri_lattice::Node;

const MOST_ENTRIES: u32 = 65_536;

const LAST_CALLER: u32 = 15;

const LAST_TURN: u32 = 65_535;

/// How many amoebots, actions and variables there are, of which a journal names some.
#[derive(Clone, Copy)]
pub struct Counts {
    pub bots: u16,
    pub actions: u8,
    /// At most 8.
    pub vars: u8,
}

/// The entries of a journal with old values.
pub type Entries = EntriesIn<Entry>;

/// The entries of a journal without old values.
pub type PlainEntries = EntriesIn<PlainEntry>;

/// The entries of a journal, in one of the two forms. They are seen as a list.
#[derive(Drop)]
pub struct EntriesIn<E: Drop> {
    entries: Vec<E>,
}

impl<E: Drop> Model for EntriesIn<E> {
    ghost use Rattle.std.specs.Prelude.{List};

    ghost Value = { List E };

    ghost view = { λ e. e.entries.items };
}

impl<E: Drop> EntriesIn<E> {
    /// The entries in their order, at most 65,536.
    pub fn entries(&self) -> &[E]
        ensures { result.now ≡ self.now }
    {
        self.entries.as_slice()
    }
}

/// A cell as it is written: the number of an amoebot may be any.
#[derive(Clone, Copy, Debug, PartialEq, Eq)]
pub(crate) enum WrittenCell {
    Spot(Node),
    Body(u32),
}

/// A cell as it is written: with its value before, if the text has it, and its value after.
#[derive(Clone, Copy, Debug, PartialEq, Eq)]
enum WrittenPair {
    Spot {
        node: Node,
        before: Option<Option<u32>>,
        occupant: Option<u32>,
    },
    Body {
        id: u32,
        before: Option<Bot>,
        bot: Bot,
    },
}

// The default fills the free places of a list of fixed size, and means nothing else.
impl Default for WrittenPair {
    fn default() -> Self {
        WrittenPair::Spot {
            node: Node { x: 0, y: 0 },
            before: None,
            occupant: None,
        }
    }
}

/// The numbers with which an entry begins, as they are written.
#[derive(Clone, Copy, Debug, PartialEq, Eq)]
struct Numbers {
    place: u32,
    caller: u32,
    turn: u32,
    bot: u32,
    action: u32,
}

/// The pairs of an entry as they are written. Each entry's fill the same room.
type Pairs = ArrayVec<WrittenPair, MOST_PAIRS>;

/// An entry as it is written, with the line of its word and without its pairs.
#[derive(Clone, Copy)]
struct Written {
    line: u32,
    numbers: Numbers,
    moved: Moved,
}

/// A port behind this word.
#[tactic(auto, unfolding(crate::specs::Readers::port_behind))]
fn read_port_behind(tokens: &mut Tokens<'_>, text: &[u8]) -> Reading<Port>
    ensures { Gives (λ p. p) (reader.port_behind text.now) tokens.old result tokens.new }
{
    read_word(tokens, text)?;
    read_port(tokens)
}

/// An end behind this word.
#[tactic(auto, unfolding(crate::specs::Readers::end_behind))]
fn read_end_behind(tokens: &mut Tokens<'_>, text: &[u8]) -> Reading<End>
    ensures { Gives (λ e. e) (reader.end_behind text.now) tokens.old result tokens.new }
{
    read_word(tokens, text)?;
    read_end(tokens)
}

fn read_moved(tokens: &mut Tokens<'_>) -> Reading<Moved>
    ensures { Gives (λ m. m) reader.a_movement tokens.old result tokens.new }
{
    if tokens.is_next(TokenKind::Word, b"none") {
        read_word(tokens, b"none")?;
        Ok(Moved::None)
    } else if tokens.is_next(TokenKind::Word, b"expand") {
        Ok(Moved::Expand(read_port_behind(tokens, b"expand")?))
    } else if tokens.is_next(TokenKind::Word, b"contract") {
        Ok(Moved::Contract(read_end_behind(tokens, b"contract")?))
    } else if tokens.is_next(TokenKind::Word, b"push") {
        Ok(Moved::Push(read_port_behind(tokens, b"push")?))
    } else {
        Ok(Moved::Pull(read_port_behind(tokens, b"pull")?))
    }
}

/// A cell, with the number of any amoebot.
pub(crate) fn read_cell(tokens: &mut Tokens<'_>) -> Reading<WrittenCell>
    ensures reads { Gives view.cell reader.a_cell tokens.old result tokens.new }
    ensures sure { IfErr result (λ e. e ≢ NoMemory) }
{
    if tokens.is_next(TokenKind::Word, b"spot") {
        read_word(tokens, b"spot")?;
        Ok(WrittenCell::Spot(read_node(tokens)?))
    } else {
        read_word(tokens, b"body")?;
        Ok(WrittenCell::Body(number(tokens)?))
    }
}

/// The number of an occupant, or that there is none.
fn read_occupant(tokens: &mut Tokens<'_>) -> Reading<Option<u32>>
    ensures { Gives (λ o. cell.Spot o) reader.an_occupant tokens.old result tokens.new }
{
    if tokens.is_next(TokenKind::Word, b"empty") {
        read_word(tokens, b"empty")?;
        Ok(None)
    } else {
        Ok(Some(number(tokens)?))
    }
}

/// The occupant before and the word behind it, in texts with old values.
/// Nothing is read in those without.
fn read_old_occupant(tokens: &mut Tokens<'_>, old: bool) -> Reading<Option<Option<u32>>>
    ensures { Gives (λ o. option_map cell.Spot o)
        (reader.an_old_value old reader.an_occupant) tokens.old result tokens.new }
{
    if !old {
        return Ok(None);
    }
    let occupant = read_occupant(tokens)?;
    read_word(tokens, b"to")?;
    Ok(Some(occupant))
}

/// The same of the amoebot before.
fn read_old_bot(tokens: &mut Tokens<'_>, old: bool, vars: u8) -> Reading<Option<Bot>>
    requires { vars ≤ most_vars }
    ensures { Gives (λ o. option_map cell.Body o)
        (reader.an_old_value old (reader.a_bot_value vars)) tokens.old result tokens.new }
{
    if !old {
        return Ok(None);
    }
    let bot = read_bot(tokens, vars)?;
    read_word(tokens, b"to")?;
    Ok(Some(bot))
}

#[tactic(auto, unfolding(crate::specs::Readers::a_pair, crate::specs::Readers::a_value))]
fn read_pair(tokens: &mut Tokens<'_>, old: bool, vars: u8) -> Reading<WrittenPair>
    requires { vars ≤ most_vars }
    ensures { Gives view.pair (reader.a_pair old vars) tokens.old result tokens.new }
{
    match read_cell(tokens)? {
        WrittenCell::Spot(node) => Ok(WrittenPair::Spot {
            node,
            before: read_old_occupant(tokens, old)?,
            occupant: read_occupant(tokens)?,
        }),
        WrittenCell::Body(id) => Ok(WrittenPair::Body {
            id,
            before: read_old_bot(tokens, old, vars)?,
            bot: read_bot(tokens, vars)?,
        }),
    }
}

/// Whether a word comes with which a cell begins.
fn is_cell_next(tokens: &Tokens<'_>) -> bool
    ensures { result ≡ next_passes spec.is_cell tokens.now.ahead }
{
    tokens.is_next(TokenKind::Word, b"spot") || tokens.is_next(TokenKind::Word, b"body")
}

/// One more pair, if one comes, where so many more may come.
fn more_pair(
    tokens: &mut Tokens<'_>,
    old: bool,
    vars: u8,
    room: u32,
) -> Reading<Option<WrittenPair>>
    requires { vars ≤ most_vars }
    ensures reads { Gives (λ o. option_map view.pair o)
        (another spec.is_cell (reader.pair_in old vars room)) tokens.old result tokens.new }
    ensures room { IfOk result (λ o. IfSome o (λ _. 0 < room)) }
{
    if !is_cell_next(tokens) {
        return Ok(None);
    }
    if room == 0 {
        return Err(tokens.refusal(RefusalKind::TooMany).into());
    }
    Ok(Some(read_pair(tokens, old, vars)?))
}

/// The pairs of an entry, in place of those of the entry before.
fn read_pairs(tokens: &mut Tokens<'_>, old: bool, vars: u8, found: &mut Pairs) -> Reading<()>
    requires { vars ≤ most_vars }
    ensures { Gives (λ u. map view.pair found.new.items)
        (reader.all_pairs old vars) tokens.old result tokens.new }
{
    found.clear();
    let mut room = MOST_PAIRS as u32;
    while let Some(pair) = more_pair(tokens, old, vars, room)? {
        found.push(pair);
        room -= 1;
    }
    Ok(())
}

#[tactic(auto, unfolding(crate::specs::Readers::the_numbers))]
fn read_numbers(tokens: &mut Tokens<'_>) -> Reading<Numbers>
    ensures { Gives view.numbers reader.the_numbers tokens.old result tokens.new }
{
    let place = number(tokens)?;
    let caller = number(tokens)?;
    let turn = number(tokens)?;
    let bot = number(tokens)?;
    let action = number(tokens)?;
    Ok(Numbers {
        place,
        caller,
        turn,
        bot,
        action,
    })
}

#[tactic(auto, unfolding(crate::specs::Readers::a_written_entry, crate::specs::Readers::entry_word))]
fn read_written(
    tokens: &mut Tokens<'_>,
    old: bool,
    vars: u8,
    before: u32,
    pairs: &mut Pairs,
) -> Reading<Written>
    requires { vars ≤ most_vars }
    ensures reads { Gives (λ w. view.entry_view w pairs.new.items)
        (reader.a_written_entry old vars before) tokens.old result tokens.new }
    ensures room { IfOk result (λ _. before < most_turns) }
{
    let line = read_word_within(tokens, b"entry", MOST_ENTRIES, before)?;
    let numbers = read_numbers(tokens)?;
    let moved = read_moved(tokens)?;
    read_pairs(tokens, old, vars, pairs)?;
    Ok(Written {
        line,
        numbers,
        moved,
    })
}

/// The occupant as a value, if it is one of so many amoebots or none.
fn known_occupant(occupant: Option<u32>, bots: u16) -> Option<Cell>
    ensures { result
        ≡ if list_all (λ id. nat_lt id bots) (spec.ids_of_value (cell.Spot occupant))
        then Some (cell.Spot occupant)
        else None }
{
    match occupant {
        None => Some(Cell::Spot(None)),
        Some(id) if id < u32::from(bots) => Some(Cell::Spot(Some(id as u16))),
        Some(_) => None,
    }
}

/// The same of the occupant before, where it is written.
fn known_old(before: Option<Option<u32>>, bots: u16) -> Option<Option<Cell>>
    ensures { result
        ≡ if list_all (λ id. nat_lt id bots) (spec.ids_of_old (option_map cell.Spot before))
        then Some (option_map cell.Spot before)
        else None }
{
    match before {
        None => Some(None),
        Some(occupant) => Some(Some(known_occupant(occupant, bots)?)),
    }
}

/// The amoebot before as a value, where it is written.
fn body_before(before: Option<Bot>) -> Option<Cell>
    ensures { result ≡ option_map cell.Body before }
{
    match before {
        None => None,
        Some(bot) => Some(Cell::Body(bot)),
    }
}

/// The cell with its values, if the amoebots that it names are some of so many.
fn known_change(pair: WrittenPair, bots: u16) -> Option<(CellName, Option<Cell>, Cell)>
    ensures { result ≡ if list_all (λ id. nat_lt id bots) (spec.ids_of_change (view.pair pair))
        then Some (view.pair pair) else None }
{
    match pair {
        WrittenPair::Spot {
            node,
            before,
            occupant,
        } => {
            let old = known_old(before, bots)?;
            let value = known_occupant(occupant, bots)?;
            Some((CellName::Spot(node), old, value))
        }
        WrittenPair::Body { id, before, bot } if id < u32::from(bots) => Some((
            CellName::Body(id as u16),
            body_before(before),
            Cell::Body(bot),
        )),
        WrittenPair::Body { .. } => None,
    }
}

/// Adds the cells, at most 10, to an entry that changes none,
/// if the amoebots that they name are some of so many.
#[inline(never)]
fn put_known<E: Form>(pairs: &[WrittenPair], bots: u16, entry: &mut E) -> bool
    requires few { length pairs.now ≤ most_pairs }
    requires begun { (w : WrittenEntry) × (entry.old ≡ E.made w) × (w.changes ≡ []) }
    ensures known { result
        ≡ list_all (λ id. nat_lt id bots) (flat_map spec.ids_of_change (map view.pair pairs.now)) }
    ensures made { (w : WrittenEntry) → entry.old ≡ E.made w → w.changes ≡ []
        → OnTrue result (entry.new ≡ E.made (spec.with_changes w (map view.pair pairs.now))) }
{
    for pair in pairs {
        let Some((name, before, value)) = known_change(*pair, bots) else {
            return false;
        };
        entry.put(name, before, value);
    }
    true
}

/// The entry with these pairs, if its caller and turn are ones that there may be,
/// and its action and amoebots some of so many.
/// Else it is refused on its line.
fn known_entry<E: Form>(written: &Written, pairs: &[WrittenPair], of: Counts) -> Reading<E>
    requires { length pairs.now ≤ most_pairs }
    ensures { result ≡ if spec.is_known of.bots of.actions (view.entry_view written.now pairs.now).entry
        then Ok (E.made (view.entry_view written.now pairs.now).entry)
        else Err (Refused (record { line = written.now.line; kind = BadEntry })) }
{
    let Numbers {
        caller,
        turn,
        bot,
        action,
        ..
    } = written.numbers;
    if caller > LAST_CALLER
        || turn > LAST_TURN
        || action >= u32::from(of.actions)
        || bot >= u32::from(of.bots)
    {
        return Err(refused(written.line, RefusalKind::BadEntry));
    }
    let mut entry = E::begin(caller as u8, turn, bot as u16, action as u8, written.moved);
    if !put_known(pairs, of.bots, &mut entry) {
        return Err(refused(written.line, RefusalKind::BadEntry));
    }
    Ok(entry)
}

/// An entry behind so many. It is judged once no further pair comes.
#[tactic(auto, unfolding(crate::specs::Readers::an_entry))]
fn read_entry<E: Form>(
    tokens: &mut Tokens<'_>,
    of: Counts,
    before: u32,
    pairs: &mut Pairs,
) -> Reading<E>
    requires { of.vars ≤ most_vars }
    ensures reads { Gives (λ e. e) (reader.an_entry E.HAS_OLD E.made of.bots of.actions of.vars before)
        tokens.old result tokens.new }
    ensures room { IfOk result (λ _. before < most_turns) }
{
    let written = read_written(tokens, E::HAS_OLD, of.vars, before, pairs)?;
    if written.numbers.place != before {
        return Err(refused(written.line, RefusalKind::BadPlace));
    }
    known_entry(&written, pairs.as_slice(), of)
}

fn read_entries<E: Form>(alloc: Global, tokens: &mut Tokens<'_>, of: Counts) -> Reading<Vec<E>>
    requires { of.vars ≤ most_vars }
    ensures { Gives (λ v. v.items) (reader.all_entries E.HAS_OLD E.made of.bots of.actions of.vars)
        tokens.old result tokens.new }
{
    let mut found = Vec::new(alloc);
    let mut pairs = ArrayVec::new();
    let mut before = 0;
    while tokens.is_next(TokenKind::Word, b"entry") {
        let entry = read_entry(tokens, of, before, &mut pairs)?;
        found.push(entry)?;
        before += 1;
    }
    Ok(found)
}

#[tactic(auto, unfolding(crate::specs::Readers::journal_by))]
fn read_whole<E: Form>(alloc: Global, tokens: &mut Tokens<'_>, of: Counts) -> Reading<Vec<E>>
    requires { of.vars ≤ most_vars }
    ensures { Gives (λ v. v.items) (reader.journal_by E.HAS_OLD E.made of.bots of.actions of.vars)
        tokens.old result tokens.new }
{
    read_word(tokens, b"journal")?;
    let entries = read_entries(alloc, tokens, of)?;
    read_word(tokens, b"end")?;
    Ok(entries)
}

fn read_section<E: Form>(alloc: Global, tokens: &mut Tokens<'_>, of: Counts) -> Reading<Vec<E>>
    requires { of.vars ≤ most_vars }
    ensures tells { TellsOf (spec.IsJournalOf E.HAS_OLD E.made of.bots of.actions of.vars) (λ v. v.items)
        tokens.old result tokens.new }
    ensures reads { ReadsOf (spec.IsJournalOf E.HAS_OLD E.made of.bots of.actions of.vars) (λ v. v.items)
        tokens.old result tokens.new }
{
    read_whole(alloc, tokens, of)
}

/// Reads a journal with old values up to its `end`, of a world of so many amoebots,
/// a program of so many actions, and so many variables, at most 8.
pub fn read_journal(alloc: Global, tokens: &mut Tokens<'_>, of: Counts) -> Reading<Entries>
    requires { of.vars ≤ most_vars }
    ensures tells { TellsOf (IsJournal of.bots of.actions of.vars) (λ e. e) tokens.old result tokens.new }
    ensures reads { ReadsOf (IsJournal of.bots of.actions of.vars) (λ e. e) tokens.old result tokens.new }
{
    let entries = read_section(alloc, tokens, of)?;
    Ok(EntriesIn { entries })
}

/// The same of a journal without old values.
pub fn read_plain(alloc: Global, tokens: &mut Tokens<'_>, of: Counts) -> Reading<PlainEntries>
    requires { of.vars ≤ most_vars }
    ensures tells { TellsOf (IsPlainJournal of.bots of.actions of.vars) (λ e. e)
        tokens.old result tokens.new }
    ensures reads { ReadsOf (IsPlainJournal of.bots of.actions of.vars) (λ e. e)
        tokens.old result tokens.new }
{
    let entries = read_section(alloc, tokens, of)?;
    Ok(EntriesIn { entries })
}
