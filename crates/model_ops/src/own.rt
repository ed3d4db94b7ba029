//! The amoebot itself, of which the memory alone was written.

ghost use Rattle.std.specs.Prelude.{◌≡◌, ◌<◌, [], IfOk, Ok, unsigned_abs};
ghost use Rattle.amoebot_state.specs.{Limits.{most_vars}, Patches.{diff}, Refusals.{IsBotInRange}};
ghost use Rattle.amoebot_state.specs.Zones.{shown_alone};
ghost use Rattle.model_ops.specs.Operations.{is_value, need, with_value};
ghost use Rattle.model_ops.specs.{Reaches.{Reaches}, Drafts.{IsOwn, own_written, with_own}};

use crate::changes::is_same;
use crate::draft::Draft;
use amoebot_state::{Bot, Cell, CellName, Failure, Found, Patch};

/// The number as a variable keeps it, where it is one of its values.
fn stored(found: &Found, var: u8, value: i32) -> Result<u8, Failure>
    requires { var < most_vars }
    ensures { result ≡ need (is_value found.now.maxes var value) Failure.OutOfRange
        (Ok (unsigned_abs value)) }
{
    let maxes = found.maxes();
    if value < 0 || value > i32::from(maxes[usize::from(var)]) {
        Err(Failure::OutOfRange)
    } else {
        Ok(value as u8)
    }
}

/// The amoebot with this value of a variable, where it is one of its values.
#[inline(always)]
pub(crate) fn with_value(found: &Found, own: &Bot, var: u8, value: i32) -> Result<Bot, Failure>
    requires below { var < most_vars }
    requires in_range { IsBotInRange own.now }
    ensures value { result ≡ need (is_value found.now.maxes var value) Failure.OutOfRange
        (Ok (with_value own.now var (unsigned_abs value))) }
    ensures in_range { IfOk result (λ b. IsBotInRange b) }
{
    let stored = stored(found, var, value)?;
    let mut bot = *own;
    bot.mem[usize::from(var)] = stored;
    Ok(bot)
}

/// The draft of what was found with this amoebot in the place of the own one.
#[inline(never)]
pub(crate) fn draft_of(found: &Found, own: &Bot) -> Draft
    requires { IsBotInRange own.now }
    ensures { result ≡ own_written found.now own.now }
{
    let mut draft = Draft::new(found);
    let id = draft.own_id();
    draft.put(id, *own);
    draft
}

/// Adds the amoebot itself to an empty patch, where it is not as it was found.
#[inline(always)]
pub(crate) fn push_own(patch: &mut Patch, found: &Found, own: &Bot)
    requires none { patch.old ≡ [] }
    requires own { IsOwn found.now own.now }
    requires reaches { Reaches (shown_alone found.now) found.now.bot (with_own found.now own.now) }
    ensures { patch.new ≡ diff (shown_alone found.now) (with_own found.now own.now) }
{
    let before = found.own();
    if is_same(before, own) {
        return;
    }
    patch.push(
        CellName::Body(found.bot()),
        Cell::Body(*before),
        Cell::Body(*own),
    );
}
