ghost use Rattle.std.specs.Prelude.{◌≡◌, ◌≤◌};
ghost use Rattle.claim_core.specs.{declared.state.Phase.TheVariants.{Refusing}, Limits.{most_turns}};
ghost use Rattle.claim_core.specs.Tags.{tag_caller, tag_turn, tag_bot};
ghost use Rattle.claim_rule.specs.Plays.{about, marked_at};
ghost use Rattle.claim_rule.specs.Tokens.{IsOf, number_in, doing, goes, refused_of};

use crate::activation::Activation;
use crate::field::Field;
use crate::manner::{ByJournal, Manner};
use crate::placed::Seen;
use crate::release::Freeing;
use amoebot_state::{CellName, Decider};
use claim_core::{tag_bot, tag_caller, tag_turn};
use std::marker::Model;

/// The tag that was found at a cell that another caller held.
#[derive(Drop)]
pub struct Tag {
    pub(crate) number: u64,
}

impl Model for Tag {
    ghost use Rattle.std.specs.Prelude.{ℕ, ◌<◌};
    ghost use Rattle.claim_core.specs.Tags.{tag_caller};

    ghost Value = { ℕ };

    ghost view = { λ t. t.number };

    ghost invariant = { λ t. (0 < t.number) × (tag_caller t.number < 256) };
}

impl Tag {
    /// The caller that held the cell.
    pub fn caller(&self) -> u8
        ensures { result ≡ tag_caller self.now }
    {
        tag_caller(self.number)
    }

    /// The turn for which it held the cell.
    pub fn turn(&self) -> u32
        ensures { result ≡ tag_turn self.now }
    {
        tag_turn(self.number)
    }

    /// The amoebot of that turn.
    pub fn bot(&self) -> u16
        ensures { result ≡ tag_bot self.now }
    {
        tag_bot(self.number)
    }
}

/// The answer to a turn whose zone had a cell that another caller held.
#[derive(Drop)]
pub struct Refused<W = ByJournal> {
    seen: Seen<W>,
    cell: CellName,
    tag: Tag,
}

impl<W> Model for Refused<W> {
    ghost use Rattle.claim_rule.specs.Tokens.{RefusedOf, refused_of};

    ghost Value = { RefusedOf };

    ghost view = { λ r. refused_of r.seen.caller r.seen.turn r.cell r.tag r.seen.place };
}

impl<W> Refused<W> {
    /// The caller that was refused.
    pub fn caller(&self) -> u8
        ensures { result ≡ self.now.caller }
    {
        self.seen.caller()
    }

    /// Its turn.
    pub fn turn(&self) -> u32
        ensures { result ≡ self.now.turn }
    {
        self.seen.turn()
    }

    /// The cell that another caller held.
    pub fn cell(&self) -> CellName
        ensures { result ≡ self.now.cell }
    {
        self.cell
    }

    /// The caller that held the cell.
    pub fn by_caller(&self) -> u8
        ensures { result ≡ self.now.by_caller }
    {
        self.tag.caller()
    }

    /// The turn for which it held the cell.
    pub fn by_turn(&self) -> u32
        ensures { result ≡ self.now.by_turn }
    {
        self.tag.turn()
    }

    /// The amoebot of that turn.
    pub fn by_bot(&self) -> u16
        ensures { result ≡ self.now.by_bot }
    {
        self.tag.bot()
    }

    /// The number of entries that the journal had after the refusal.
    pub fn place(&self) -> u32
        ensures { result ≡ self.now.place }
    {
        self.seen.place()
    }
}

/// A caller that found another's tag at the next cell of its zone, and claims no more.
#[derive(Drop)]
pub struct Stopped<D: Decider, W: Manner = ByJournal> {
    pub(crate) activation: Activation<D, W>,
}

impl<D: Decider, W: Manner> Model for Stopped<D, W> {
    ghost use Rattle.claim_rule.specs.Tokens.{Token, IsStopped, KeepsActivation, token_in, cells_in};

    ghost Value = { Token D };

    ghost view = { λ s. token_in s.activation };

    ghost invariant = { λ s. KeepsActivation D.verdict W.way s.activation
        × IsStopped D.verdict s.activation.seat.me s.activation.room.value.caller s.activation.room.value.turn
        s.activation.room.value.bot (cells_in s.activation) };
}

/// The turn of a refused claim gets its mark: it reads the journal's length.
pub fn refuse<D: Decider, W: Manner>(
    stopped: Stopped<D, W>,
    field: &Field<'_, D, W>,
    cell: CellName,
    tag: Tag,
) -> (Freeing<D, W>, Refused<W>)
    requires field { IsOf field.now stopped }
    requires refused { (doing stopped).phase ≡ Refusing cell tag }
    ensures marked { result.0 ≡ goes stopped
        (marked_at (about D.verdict stopped.view) (doing stopped) result.1.place) }
    ensures told { result.1 ≡ refused_of (number_in stopped) (doing stopped).turn cell tag result.1.place }
    ensures few { result.1.place ≤ most_turns }
{
    let Stopped { mut activation } = stopped;
    let place = field.place(&mut activation.seat);
    let room = &mut *activation.room;
    room.after = place;
    let seen = Seen::new(room.caller, room.turn, place);
    (Freeing { activation }, Refused { seen, cell, tag })
}
