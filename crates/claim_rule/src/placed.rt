//! The turn of a caller, and the length of the journal at one of its steps.
ghost use Rattle.std.specs.Prelude.{◌≡◌};
ghost use Rattle.claim_rule.specs.Tokens.{placed_turn};

use crate::manner::ByJournal;
use std::marker::{Model, PhantomData};

/// A look of a turn at the journal.
#[derive(Drop)]
pub struct Looked;

/// A commit of a turn.
#[derive(Drop)]
pub struct Committed;

/// The length of the journal that a turn saw when it looked:
/// with its whole zone held, or after a refusal.
pub type Seen<W = ByJournal> = Placed<Looked, W>;

/// The place in the journal of the entry that a turn committed.
pub type Receipt<W = ByJournal> = Placed<Committed, W>;

/// A turn of a caller, and the place in the journal where it did something.
#[derive(Drop)]
pub struct Placed<K, W = ByJournal> {
    caller: u8,
    turn: u32,
    place: u32,
    what: PhantomData<K>,
    of: PhantomData<W>,
}

impl<K, W> Model for Placed<K, W> {
    ghost use Rattle.claim_rule.specs.Tokens.{PlacedTurn};

    ghost Value = { PlacedTurn };

    ghost view = { λ p. record { caller = p.caller; turn = p.turn; place = p.place } };
}

impl<K, W> Placed<K, W> {
    /// A caller's turn, with a place.
    pub(crate) fn new(caller: u8, turn: u32, place: u32) -> Self
        ensures { result ≡ placed_turn caller turn place }
    {
        Placed {
            caller,
            turn,
            place,
            what: PhantomData,
            of: PhantomData,
        }
    }

    /// The caller whose turn it was, by the number of its list, from 0 on.
    pub fn caller(&self) -> u8
        ensures { result ≡ self.now.caller }
    {
        self.caller
    }

    /// Its number among the caller's turns, from 0 on.
    pub fn turn(&self) -> u32
        ensures { result ≡ self.now.turn }
    {
        self.turn
    }

    /// How many entries the journal had when it was looked at, or before the turn's own.
    pub fn place(&self) -> u32
        ensures { result ≡ self.now.place }
    {
        self.place
    }
}
