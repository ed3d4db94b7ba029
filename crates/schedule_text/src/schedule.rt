//! The section `schedule` read.

ghost use Rattle.std.specs.Prelude.{◌≡◌, ◌<◌, ◌≤◌, ◌+◌, length, option_map, slice_index, IfOk, IfSome};
ghost use Rattle.std.specs.List.{All};
ghost use Rattle.text_tokens.specs.{Reading.{is_number}, Steps.{Gives, ReadsOf, TellsOf, another}};
ghost use Rattle.schedule_text.specs.Schedules as spec;
ghost use Rattle.schedule_text.specs.Readers as reader;
ghost use Rattle.schedule_text.specs.Views as view;

use crate::known::read_known;
use shape_text::{Reading, read_word};
use std::alloc::Global;
use std::marker::Model;
use text_tokens::{RefusalKind, TokenKind, Tokens, refused};

const MOST_STEPS: u32 = 1_000_000;

/// The caller of each step, of which there are at most 1,000,000. It is seen as a list.
#[derive(Drop)]
pub struct Schedule {
    callers: Vec<u8>,
}

impl Model for Schedule {
    ghost use Rattle.std.specs.Prelude.{ℕ, List, ◌≤◌, length};
    ghost use Rattle.schedule_text.specs.Schedules.{most_steps};

    ghost Value = { List ℕ };

    ghost view = { λ s. s.callers.items };

    ghost invariant = { λ s. length s.callers.items ≤ most_steps };
}

impl Schedule {
    /// How many steps there are.
    pub fn steps(&self) -> u32
        ensures { result ≡ length self.now }
    {
        self.callers.len() as u32
    }

    /// The caller of a step.
    pub fn step(&self, number: u32) -> u8
        requires { number < length self.now }
        ensures { result ≡ slice_index self.now number }
    {
        self.callers[number as usize]
    }
}

/// Some steps of a caller in a row.
#[derive(Clone, Copy, Debug, PartialEq, Eq)]
struct Stretch {
    caller: u8,
    times: u32,
}

/// One of so many callers, behind so many steps.
#[tactic(auto, unfolding(crate::specs::Readers::a_caller))]
fn read_caller(tokens: &mut Tokens<'_>, callers: u8, before: u32) -> Reading<u8>
    ensures reads { Gives (λ n. n) (reader.a_caller callers before) tokens.old result tokens.new }
    ensures room { IfOk result (λ _. before < spec.most_steps) }
    ensures there { IfOk result (λ n. n < callers) }
{
    Ok(read_known(tokens, MOST_STEPS, u32::from(callers), before)? as u8)
}

/// How many steps a caller makes in a row, behind so many.
#[tactic(auto, unfolding(crate::specs::Readers::number_of_times))]
fn read_number_of_times(tokens: &mut Tokens<'_>, before: u32) -> Reading<u32>
    requires { before ≤ spec.most_steps }
    ensures reads { Gives (λ n. n) (reader.number_of_times before) tokens.old result tokens.new }
    ensures times { IfOk result (spec.AreTimes before) }
{
    let token = tokens.take_kind(TokenKind::Number)?;
    let times = tokens.number(&token);
    if times == 0 {
        return Err(refused(token.line, RefusalKind::BadRange));
    }
    if times > MOST_STEPS - before {
        return Err(refused(token.line, RefusalKind::TooMany));
    }
    Ok(times)
}

#[tactic(auto, unfolding(crate::specs::Readers::its_times))]
fn read_times(tokens: &mut Tokens<'_>, before: u32) -> Reading<u32>
    requires { before ≤ spec.most_steps }
    ensures reads { Gives (λ n. n) (reader.its_times before) tokens.old result tokens.new }
    ensures times { IfOk result (spec.AreTimes before) }
{
    read_word(tokens, b"times")?;
    read_number_of_times(tokens, before)
}

/// One step, where it is not said how many.
fn read_any_times(tokens: &mut Tokens<'_>, before: u32) -> Reading<u32>
    requires { before < spec.most_steps }
    ensures reads { Gives (λ n. n) (reader.any_times before) tokens.old result tokens.new }
    ensures times { IfOk result (spec.AreTimes before) }
{
    if !tokens.is_next(TokenKind::Word, b"times") {
        return Ok(1);
    }
    read_times(tokens, before)
}

#[tactic(auto, unfolding(crate::specs::Readers::a_stretch))]
fn read_stretch(tokens: &mut Tokens<'_>, callers: u8, before: u32) -> Reading<Stretch>
    ensures reads { Gives view.stretch (reader.a_stretch callers before) tokens.old result tokens.new }
    ensures times { IfOk result (λ s. spec.AreTimes before s.times) }
    ensures there { IfOk result (λ s. s.caller < callers) }
{
    let caller = read_caller(tokens, callers, before)?;
    let times = read_any_times(tokens, before)?;
    Ok(Stretch { caller, times })
}

/// One more stretch, if a number comes.
fn more_stretch(tokens: &mut Tokens<'_>, callers: u8, before: u32) -> Reading<Option<Stretch>>
    ensures reads { Gives (λ o. option_map view.stretch o)
        (another is_number (reader.a_stretch callers before)) tokens.old result tokens.new }
    ensures times { IfOk result (λ o. IfSome o (λ s. spec.AreTimes before s.times)) }
    ensures there { IfOk result (λ o. IfSome o (λ s. s.caller < callers)) }
{
    if !tokens.is_next_kind(TokenKind::Number) {
        return Ok(None);
    }
    Ok(Some(read_stretch(tokens, callers, before)?))
}

/// The caller of each step.
fn read_steps(alloc: Global, tokens: &mut Tokens<'_>, callers: u8) -> Reading<Vec<u8>>
    ensures reads { Gives (λ v. v.items) (reader.all_steps callers) tokens.old result tokens.new }
    ensures few { IfOk result (λ v. length v.items ≤ spec.most_steps) }
    ensures there { IfOk result (λ v. All (λ caller. caller < callers) v.items) }
{
    let mut steps = Vec::new(alloc);
    let mut before = 0;
    while let Some(stretch) = more_stretch(tokens, callers, before)? {
        before += stretch.times;
        steps.resize(before as usize, stretch.caller)?;
    }
    Ok(steps)
}

#[tactic(auto, unfolding(crate::specs::Readers::a_schedule))]
fn read_whole(alloc: Global, tokens: &mut Tokens<'_>, callers: u8) -> Reading<Schedule>
    ensures reads { Gives (λ s. s) (reader.a_schedule callers) tokens.old result tokens.new }
    ensures there { IfOk result (λ s. All (λ caller. caller < callers) s) }
{
    read_word(tokens, b"schedule")?;
    let steps = read_steps(alloc, tokens, callers)?;
    read_word(tokens, b"end")?;
    Ok(Schedule { callers: steps })
}

/// Reads the section `schedule` up to its `end`, of so many callers.
pub fn read_schedule(alloc: Global, tokens: &mut Tokens<'_>, callers: u8) -> Reading<Schedule>
    ensures tells { TellsOf (spec.IsSchedule callers) (λ s. s) tokens.old result tokens.new }
    ensures reads { ReadsOf (spec.IsSchedule callers) (λ s. s) tokens.old result tokens.new }
    ensures there { IfOk result (λ s. All (λ caller. caller < callers) s) }
{
    read_whole(alloc, tokens, callers)
}
