//! A small format in which a group is judged once nothing more belongs to it.
//! It is the pattern for elements that may go on, and for a whole input.

ghost use Rattle.std.specs.Prelude.{◌<◌, IfOk, IfSome, map, option_map};
ghost use Rattle.text_tokens.specs.{declared.refusal.RefusalKind.TheVariants.{Trailing}, Text.{IsCountable}};
ghost use Rattle.text_tokens.specs.Steps.{Gives, ReadsInput, ReadsOf, TellsOf, another};
ghost use Rattle.text_tokens.specs.Groups as spec;
ghost use Rattle.text_tokens.specs.GroupViews as view;

use crate::refusal::{ReadRefusal, RefusalKind};
use crate::terminals::{number, number_up_to, refused, the_line};
use crate::token::TokenKind;
use crate::tokens::Tokens;
use std::alloc::Global;

/// How many pairs a group may have.
const PAIRS: u32 = 2;

/// The largest number of a pair.
const LARGEST: u32 = 9;

/// A group, with the line of its word, the number of its pairs as it says, and their numbers.
#[derive(Drop)]
pub struct Group {
    pub line: u32,
    pub count: u32,
    pub pairs: Vec<u32>,
}

/// A pair.
fn read_pair(tokens: &mut Tokens<'_>) -> Result<u32, ReadRefusal>
    ensures { Gives (λ n. n) spec.a_group_pair tokens.old result tokens.new }
{
    the_line(tokens, TokenKind::Word, b"pair")?;
    number_up_to(tokens, LARGEST, RefusalKind::BadRange)
}

/// One more pair, if one comes, where so many more may come.
fn more_pair(tokens: &mut Tokens<'_>, room: u32) -> Result<Option<u32>, ReadRefusal>
    ensures reads { Gives (λ o. o)
        (another spec.is_group_pair (spec.group_pair_in room)) tokens.old result tokens.new }
    ensures room { IfOk result (λ o. IfSome o (λ _. 0 < room)) }
{
    if !tokens.is_next(TokenKind::Word, b"pair") {
        return Ok(None);
    }
    if room == 0 {
        return Err(tokens.refusal(RefusalKind::TooMany).into());
    }
    Ok(Some(read_pair(tokens)?))
}

fn read_pairs(alloc: Global, tokens: &mut Tokens<'_>) -> Result<Vec<u32>, ReadRefusal>
    ensures { Gives (λ v. v.items) spec.all_group_pairs tokens.old result tokens.new }
{
    let mut found = Vec::new(alloc);
    let mut room = PAIRS;
    while let Some(pair) = more_pair(tokens, room)? {
        found.push(pair)?;
        room -= 1;
    }
    Ok(found)
}

/// A group, which is judged once no further pair comes.
fn read_group(alloc: Global, tokens: &mut Tokens<'_>) -> Result<Group, ReadRefusal>
    ensures { Gives view.written_group spec.a_group tokens.old result tokens.new }
{
    let line = the_line(tokens, TokenKind::Word, b"entry")?;
    let count = number(tokens)?;
    let pairs = read_pairs(alloc, tokens)?;
    if pairs.len() != count as usize {
        return Err(refused(line, RefusalKind::BadEntry));
    }
    Ok(Group { line, count, pairs })
}

/// One more group, if one comes.
fn more_group(alloc: Global, tokens: &mut Tokens<'_>) -> Result<Option<Group>, ReadRefusal>
    ensures { Gives (λ o. option_map view.written_group o)
        (another spec.is_group spec.a_group) tokens.old result tokens.new }
{
    if !tokens.is_next(TokenKind::Word, b"entry") {
        return Ok(None);
    }
    Ok(Some(read_group(alloc, tokens)?))
}

fn read_group_list(alloc: Global, tokens: &mut Tokens<'_>) -> Result<Vec<Group>, ReadRefusal>
    ensures { Gives (λ v. map view.written_group v.items) spec.all_groups tokens.old result tokens.new }
{
    let mut found = Vec::new(alloc);
    while let Some(entry) = more_group(alloc, tokens)? {
        found.push(entry)?;
    }
    Ok(found)
}

#[tactic(auto, unfolding(crate::specs::Groups::groups_to_end))]
fn read_whole(alloc: Global, tokens: &mut Tokens<'_>) -> Result<Vec<Group>, ReadRefusal>
    ensures { Gives (λ v. map view.written_group v.items) spec.groups_to_end tokens.old result tokens.new }
{
    let entries = read_group_list(alloc, tokens)?;
    the_line(tokens, TokenKind::Word, b"end")?;
    Ok(entries)
}

/// Reads groups up to their `end`.
pub fn read_groups(alloc: Global, tokens: &mut Tokens<'_>) -> Result<Vec<Group>, ReadRefusal>
    ensures tells { TellsOf spec.AreGroups
        (λ v. map view.written_group v.items) tokens.old result tokens.new }
    ensures reads { ReadsOf spec.AreGroups
        (λ v. map view.written_group v.items) tokens.old result tokens.new }
{
    read_whole(alloc, tokens)
}

/// Reads bytes that are groups up to their `end`, with nothing behind it but blanks and comments.
/// A token behind it is `Trailing`.
pub fn read_input(alloc: Global, bytes: &[u8]) -> Result<Vec<Group>, ReadRefusal>
    requires { IsCountable bytes.now }
    ensures { ReadsInput spec.AreGroups Trailing (λ v. map view.written_group v.items) bytes.now result }
{
    let mut tokens = Tokens::new(bytes);
    let entries = read_groups(alloc, &mut tokens)?;
    tokens.end(RefusalKind::Trailing)?;
    Ok(entries)
}
