ghost use Rattle.std.specs.Prelude.{◌≡◌, ◌≢◌, ℕ, ◌<◌, ◌≤◌, [], length};
ghost use Rattle.claim_core.specs.Limits.{most_turns};
ghost use Rattle.claim_rule.specs.{Plays.{about, released_caller, occ_in}, Tokens.{IsOf, doing, goes}};
ghost use Rattle.claim_rule.specs.Words.{node_word, word_tag, word_occ, word_stamp};

use crate::activation::Activation;
use crate::field::Field;
use crate::manner::{ByJournal, Manner};
use crate::seat::Seat;
use crate::words::{node_word, word_occ};
use amoebot_state::{Cell, Decider};
use claim_core::cell_number;
use std::marker::Model;

/// A caller whose turn has its mark, and that frees the cells which it holds.
#[derive(Drop)]
pub struct Freeing<D: Decider, W: Manner = ByJournal> {
    pub(crate) activation: Activation<D, W>,
}

impl<D: Decider, W: Manner> Model for Freeing<D, W> {
    ghost use Rattle.claim_rule.specs.Tokens.{Token, IsFreeing, KeepsActivation, token_in, cells_in};

    ghost Value = { Token D };

    ghost view = { λ f. token_in f.activation };

    ghost invariant = { λ f. KeepsActivation D.verdict W.way f.activation
        × IsFreeing D.verdict f.activation.seat.me f.activation.room.value.turn
        (cells_in f.activation) f.activation.room.value.after };
}

impl<D: Decider, W: Manner> Freeing<D, W> {
    /// How many cells are held.
    pub fn count(&self) -> u8
        ensures { result ≡ length (doing self.now).held }
    {
        self.activation.room.cells.len() as u8
    }
}

/// Frees the cell that was won last.
pub fn free_last<D: Decider, W: Manner>(
    freeing: Freeing<D, W>,
    field: &Field<'_, D, W>,
) -> Freeing<D, W>
    requires field { IsOf field.now freeing }
    requires some { 0 < length (doing freeing).held }
    ensures { result ≡ goes freeing (released_caller (about D.verdict freeing.view) (doing freeing)) }
{
    let Freeing { mut activation } = freeing;
    let room = &mut *activation.room;
    let (cell, value) = room.cells.last();
    let Some(number) = cell_number(&room.area, *cell) else {
        unreachable!()
    };
    if W::has_slot(*cell) {
        let slot = W::slot(*cell, number);
        field.put_there(&mut activation.seat, slot, value, room.stale);
        field.free(&mut activation.seat, number);
        room.cells.drop_last();
        Freeing { activation }
    } else {
        let occ = occupant_in(value);
        let word = word_left(room.notes.pop(), occ, room.after);
        field.free_node(&mut activation.seat, number, word);
        room.cells.drop_last();
        Freeing { activation }
    }
}

/// The occupant in the value of a node.
fn occupant_in(value: &Cell) -> Option<u16>
    ensures { result ≡ occ_in value.now }
{
    match value {
        Cell::Spot(occ) => *occ,
        Cell::Body(_) => None,
    }
}

/// The word with which a node is freed that was found with this word: the same,
/// or one with another stamp where its occupant has changed.
fn word_left(found: u64, occ: Option<u16>, after: u32) -> u64
    requires free { word_tag found ≡ 0 }
    requires few { after ≤ most_turns }
    ensures { (stamp : ℕ) × (result ≡ node_word 0 occ stamp)
        × (occ ≡ word_occ found → stamp ≡ word_stamp found) × (occ ≢ word_occ found → stamp ≡ after) }
{
    if occ == word_occ(found) {
        found
    } else {
        node_word(0, occ, after)
    }
}

/// The turn is over: nothing is held.
pub fn end<D: Decider, W: Manner>(freeing: Freeing<D, W>) -> Seat<D, W>
    requires none { (doing freeing).held ≡ [] }
    ensures { result ≡ freeing }
{
    let Freeing { activation } = freeing;
    let Activation { seat, mut room, of } = activation;
    room.turn += 1;
    Seat { seat, room, of }
}
