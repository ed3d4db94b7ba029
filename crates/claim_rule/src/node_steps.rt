//! The claim of a node in half-steps: a look at its word, which is no claim,
//! and a try to put the tag into the word that was found.
ghost use Rattle.std.specs.Prelude.{◌≡◌, ◌<◌, ◌≤◌, Some, IfOk, IfErr};
ghost use Rattle.amoebot_state.specs.declared.cell.Cell.TheVariants as cell;
ghost use Rattle.amoebot_state.specs.declared.cell.CellName.TheVariants as name;
ghost use Rattle.claim_core.specs.{declared.state.Phase.TheVariants.{Refusing}, Limits.{most_turns}};
ghost use Rattle.claim_core.specs.Machine.{caller_with_cell};
ghost use Rattle.claim_rule.specs.{Manners.{by_journal}, Plays.{IsOthers, about}};
ghost use Rattle.claim_rule.specs.Tokens.{IsOf, number_in, doing, goes, next_in};

use crate::activation::Activation;
use crate::field::Field;
use crate::held::Held;
use crate::manner::{ByJournal, Manner};
use crate::stopped::{Stopped, Tag};
use crate::words::{word_occ, word_stamp, word_tag};
use amoebot_state::{Cell, CellName, Decider};
use claim_core::cell_number;
use std::marker::Model;
use tri_lattice::Node;

/// A caller that claims the zone of its turn's amoebot, and has found the word of the next cell,
/// a node, free.
/// Contracts see it as the claim, the node, and the occupant and the stamp in the word.
#[derive(Drop)]
pub struct Noted<D: Decider, W: Manner = ByJournal> {
    pub(crate) activation: Activation<D, W>,
    pub(crate) node: Node,
    /// The number of the node's word.
    pub(crate) index: usize,
    pub(crate) word: u64,
}

impl<D: Decider, W: Manner> Model for Noted<D, W> {
    ghost use Rattle.std.specs.Prelude.{◌≡◌, Some};
    ghost use Rattle.amoebot_state.specs.declared.cell.CellName.TheVariants as name;
    ghost use Rattle.claim_core.specs.Cells.{number};
    ghost use Rattle.claim_rule.specs.{Words.{word_occ, word_stamp}, Manners.{by_journal}, Plays.{about}};
    ghost use Rattle.claim_rule.specs.Tokens.{NotedOf, IsNoting, KnowsTurn, KnowsWalls, frame_of, token_in};
    ghost use Rattle.claim_rule.specs.Tokens.{cells_in, notes_in};

    ghost Value = { NotedOf D };

    ghost view = { λ n. record {
      claim = token_in n.activation;
      node = n.node;
      occ = word_occ n.word;
      stamp = word_stamp n.word;
    } };

    ghost invariant = { λ n.
        IsNoting D.verdict n.activation.seat.me n.activation.room.value.caller n.activation.room.value.turn
        n.activation.room.value.bot n.activation.room.value.stale
        (frame_of n.activation.room.value.area n.activation.room.value.maxes) (cells_in n.activation)
        (notes_in n.activation) n.node n.word × KnowsTurn n.activation.room.value
        × (number n.activation.room.value.area (name.Spot n.node) ≡ Some n.index)
        × KnowsWalls (about D.verdict n.activation.seat.me.0).world n.activation.room.value
        × (W.way ≡ by_journal) };
}

impl<D: Decider, W: Manner> Noted<D, W> {
    /// The occupant in the word that was found.
    pub fn occupant(&self) -> Option<u16>
        ensures { result ≡ self.now.occ }
    {
        word_occ(self.word)
    }

    /// The stamp in it.
    pub fn stamp(&self) -> u32
        ensures { result ≡ self.now.stamp }
    {
        word_stamp(self.word)
    }
}

/// A look at the word of the next cell, a node.
/// It is free, and noted, or another caller's tag was found, and the turn claims no more.
pub fn look_at<D: Decider, W: Manner>(
    held: Held<D, W>,
    field: &Field<'_, D, W>,
    node: Node,
) -> Result<Noted<D, W>, (Stopped<D, W>, Tag)>
    requires words { W.way ≡ by_journal }
    requires field { IsOf field.now held }
    requires next { next_in D.verdict held ≡ Some (name.Spot node) }
    ensures noted { IfOk result (λ noted. (noted.claim ≡ held) × (noted.node ≡ node)) }
    ensures refused { IfErr result (λ by.
        (by.0 ≡ goes held (record (doing held) { phase = Refusing (name.Spot node) by.1 }))
        × IsOthers (about D.verdict held.view) (number_in held) by.1) }
{
    let Held { mut activation } = held;
    let Some(index) = cell_number(&activation.room.area, CellName::Spot(node)) else {
        unreachable!()
    };
    let word = field.look_node(&mut activation.seat, index);
    let by = word_tag(word);
    if by != 0 {
        return Err((Stopped { activation }, Tag { number: by }));
    }
    Ok(Noted {
        activation,
        node,
        index,
        word,
    })
}

/// A try to put the turn's tag into the word that was noted.
/// The node is won with its occupant; or another free word was found, with a greater stamp,
/// and is noted; or another caller's tag was found, and the turn claims no more.
pub fn try_at<D: Decider, W: Manner>(
    noted: Noted<D, W>,
    field: &Field<'_, D, W>,
) -> Result<Held<D, W>, Result<Noted<D, W>, (Stopped<D, W>, Tag)>>
    requires field { IsOf field.now noted.claim }
    ensures won { IfOk result (λ more. more ≡ goes noted.claim
        (caller_with_cell (about D.verdict noted.claim.view) (number_in noted.claim) (doing noted.claim)
        (name.Spot noted.node) (cell.Spot noted.occ))) }
    ensures again { IfErr result (λ found.
        IfOk found (λ next. (next.claim ≡ noted.claim) × (next.node ≡ noted.node)
        × (noted.stamp < next.stamp) × (next.stamp ≤ most_turns))) }
    ensures refused { IfErr result (λ found. IfErr found (λ by.
        (by.0 ≡ goes noted.claim
        (record (doing noted.claim) { phase = Refusing (name.Spot noted.node) by.1 }))
        × IsOthers (about D.verdict noted.claim.view) (number_in noted.claim) by.1)) }
{
    let Noted {
        mut activation,
        node,
        index,
        word,
    } = noted;
    let tag = activation.room.tag;
    let found = field.try_node(&mut activation.seat, index, word, word + tag);
    if found == word {
        let occ = word_occ(word);
        let wall = field.world().is_wall_number(index as u32);
        let room = &mut *activation.room;
        room.hold(CellName::Spot(node), Cell::Spot(occ), wall);
        room.notes.push(node, word);
        return Ok(Held { activation });
    }
    let by = word_tag(found);
    if by != 0 {
        return Err(Err((Stopped { activation }, Tag { number: by })));
    }
    Err(Ok(Noted {
        activation,
        node,
        index,
        word: found,
    }))
}
