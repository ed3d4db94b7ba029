//! The section `lists` read.

ghost use Rattle.std.specs.{Prelude.{◌<◌, ◌≤◌, ◌+◌, length, option_map, IfOk, IfSome}, List.{All}};
ghost use Rattle.text_tokens.specs.{Reading.{is_number}, Steps.{Gives, ReadsOf, TellsOf, another}};
ghost use Rattle.claim_core.specs.Limits.{most_callers, most_turns, most_ids};
ghost use Rattle.claim_core.specs.Turns.{AreFew, HaveBots, IsList};
ghost use Rattle.schedule_text.specs.Lists as spec;
ghost use Rattle.schedule_text.specs.Readers as reader;

use crate::known::read_known;
use claim_core::Lists;
use shape_text::{Reading, read_word};
use std::alloc::Global;
use text_tokens::{ReadRefusal, RefusalKind, TokenKind, Tokens, number_up_to, refused};

const MOST_CALLERS: u32 = 16;

/// The most turns of all callers together.
const MOST_TURNS: u32 = 65_536;

const MOST_IDS: u32 = 4096;

/// The number of an amoebot, where there are so many, behind so many ids.
#[tactic(auto, unfolding(crate::specs::Readers::an_id))]
fn read_id(tokens: &mut Tokens<'_>, bots: u16, before: u32) -> Reading<u16>
    ensures reads { Gives (λ n. n) (reader.an_id bots before) tokens.old result tokens.new }
    ensures room { IfOk result (λ _. before < most_ids) }
    ensures there { IfOk result (λ n. n < bots) }
{
    Ok(read_known(tokens, MOST_IDS, u32::from(bots), before)? as u16)
}

/// One more id, if a number comes.
fn more_id(tokens: &mut Tokens<'_>, bots: u16, before: u32) -> Reading<Option<u16>>
    ensures reads { Gives (λ o. o)
        (another is_number (reader.an_id bots before)) tokens.old result tokens.new }
    ensures room { IfOk result (λ o. IfSome o (λ _. before < most_ids)) }
    ensures there { IfOk result (λ o. IfSome o (λ n. n < bots)) }
{
    if !tokens.is_next_kind(TokenKind::Number) {
        return Ok(None);
    }
    Ok(Some(read_id(tokens, bots, before)?))
}

/// The ids of a list, at least one.
fn read_ids(alloc: Global, tokens: &mut Tokens<'_>, bots: u16) -> Reading<Vec<u16>>
    ensures reads { Gives (λ v. v.items) (reader.all_ids bots) tokens.old result tokens.new }
    ensures list { IfOk result (λ v. IsList v.items) }
    ensures there { IfOk result (λ v. All (λ id. id < bots) v.items) }
{
    let mut ids = Vec::new(alloc);
    ids.push(read_id(tokens, bots, 0)?)?;
    let mut before = 1;
    while let Some(id) = more_id(tokens, bots, before)? {
        ids.push(id)?;
        before += 1;
    }
    Ok(ids)
}

/// The word of a list behind so many, for its line.
#[tactic(auto, unfolding(crate::specs::Readers::list_word))]
fn read_list_word(tokens: &mut Tokens<'_>, turns: u32, before: u32) -> Reading<u32>
    requires turns { turns ≤ most_turns }
    requires before { before ≤ most_callers }
    ensures reads { Gives (λ line. line) (reader.list_word turns before) tokens.old result tokens.new }
    ensures few { IfOk result (λ _. AreFew (before + 1) turns) }
{
    let token = tokens.take(TokenKind::Word, b"list")?;
    let callers = before + 1;
    if callers > MOST_CALLERS || callers * turns > MOST_TURNS {
        return Err(refused(token.line, RefusalKind::TooMany));
    }
    Ok(token.line)
}

/// The list of a caller behind those of so many.
#[tactic(auto, unfolding(crate::specs::Readers::a_list))]
fn read_list(
    alloc: Global,
    tokens: &mut Tokens<'_>,
    bots: u16,
    turns: u32,
    before: u32,
) -> Reading<Vec<u16>>
    requires turns { turns ≤ most_turns }
    requires before { before ≤ most_callers }
    ensures reads { Gives (λ v. v.items) (reader.a_list bots turns before) tokens.old result tokens.new }
    ensures few { IfOk result (λ _. AreFew (before + 1) turns) }
    ensures list { IfOk result (λ v. IsList v.items) }
    ensures there { IfOk result (λ v. All (λ id. id < bots) v.items) }
{
    read_list_word(tokens, turns, before)?;
    read_ids(alloc, tokens, bots)
}

/// One more list, if one comes.
fn more_list(
    alloc: Global,
    tokens: &mut Tokens<'_>,
    bots: u16,
    turns: u32,
    before: u32,
) -> Reading<Option<Vec<u16>>>
    requires turns { turns ≤ most_turns }
    requires before { before ≤ most_callers }
    ensures reads { Gives (λ o. option_map (λ v. v.items) o)
        (another spec.is_list (reader.a_list bots turns before)) tokens.old result tokens.new }
    ensures few { IfOk result (λ o. IfSome o (λ _. AreFew (before + 1) turns)) }
    ensures list { IfOk result (λ o. IfSome o (λ v. IsList v.items)) }
    ensures there { IfOk result (λ o. IfSome o (λ v. All (λ id. id < bots) v.items)) }
{
    if !tokens.is_next(TokenKind::Word, b"list") {
        return Ok(None);
    }
    Ok(Some(read_list(alloc, tokens, bots, turns, before)?))
}

/// The lists of all callers, who have so many turns each.
fn read_all_lists(alloc: Global, tokens: &mut Tokens<'_>, bots: u16, turns: u32) -> Reading<Lists>
    requires { turns ≤ most_turns }
    ensures reads { Gives (λ l. l) (reader.all_lists bots turns) tokens.old result tokens.new }
    ensures there { IfOk result (HaveBots bots) }
{
    let Ok(mut lists) = Lists::new(alloc, turns) else {
        return Err(ReadRefusal::NoMemory);
    };
    let mut before = 0;
    while let Some(ids) = more_list(alloc, tokens, bots, turns, before)? {
        let Ok(()) = lists.add(alloc, ids.as_slice()) else {
            return Err(ReadRefusal::NoMemory);
        };
        before += 1;
    }
    Ok(lists)
}

/// The turns of each caller.
#[tactic(auto, unfolding(crate::specs::Readers::some_turns))]
fn read_turns(tokens: &mut Tokens<'_>) -> Reading<u32>
    ensures reads { Gives (λ n. n) reader.some_turns tokens.old result tokens.new }
    ensures few { IfOk result (λ n. n ≤ most_turns) }
{
    read_word(tokens, b"turns")?;
    number_up_to(tokens, MOST_TURNS, RefusalKind::TooMany)
}

#[tactic(auto, unfolding(crate::specs::Readers::the_lists))]
fn read_whole(alloc: Global, tokens: &mut Tokens<'_>, bots: u16) -> Reading<Lists>
    ensures reads { Gives (λ l. l) (reader.the_lists bots) tokens.old result tokens.new }
    ensures there { IfOk result (HaveBots bots) }
{
    read_word(tokens, b"lists")?;
    let turns = read_turns(tokens)?;
    let lists = read_all_lists(alloc, tokens, bots, turns)?;
    read_word(tokens, b"end")?;
    Ok(lists)
}

/// Reads the section `lists` up to its `end`, of a world of so many amoebots.
pub fn read_lists(alloc: Global, tokens: &mut Tokens<'_>, bots: u16) -> Reading<Lists>
    ensures tells { TellsOf (spec.IsLists bots) (λ l. l) tokens.old result tokens.new }
    ensures reads { ReadsOf (spec.IsLists bots) (λ l. l) tokens.old result tokens.new }
    ensures few { IfOk result (λ l. length l.ids ≤ most_callers) }
    ensures there { IfOk result (HaveBots bots) }
{
    read_whole(alloc, tokens, bots)
}
