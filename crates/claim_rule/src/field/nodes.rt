//! The steps on nodes' words.
ghost use Rattle.std.specs.Prelude.{◌≡◌};
ghost use mathlib.Core.Option.{none};
ghost use Rattle.atomic_table.specs.Table.{step};
ghost use Rattle.claim_rule.specs.Manners.{by_journal};
ghost use Rattle.claim_rule.specs.Plays.{IsToTryNode, IsToWin, IsToFreeNode, LooksAt, TriesNode};
ghost use Rattle.claim_rule.specs.{Plays.{ReleasesNode}, Internal.{MayStep, IsSameSeat}};

use crate::field::Field;
use crate::manner::Manner;
use crate::rule::{FreeNode, Look, Try};
use crate::views::{Slot, View};
use amoebot_state::Decider;
use atomic_table::Seat;
use tri_lattice::Node;

impl<'d, D: Decider, W: Manner> Field<'d, D, W> {
    /// One look at the word of the node with this number.
    pub(crate) fn look_node(&self, seat: &mut Seat<Slot, View<D>>, cell: usize) -> u64
        requires words { W.way ≡ by_journal }
        requires may { MayStep self.now seat.old }
        requires next { IsToTryNode D.verdict cell seat.old.me.0 }
        ensures same { IsSameSeat seat.old seat.new }
        ensures told { LooksAt D.verdict
            (step self.now.table.slots cell 0 0 none) seat.old.me result seat.new.me }
    {
        self.table.shared.load::<Look>(seat, cell)
    }

    /// One try to put a tag into the word that was noted. It returns the word that was found.
    pub(crate) fn try_node(
        &self,
        seat: &mut Seat<Slot, View<D>>,
        cell: usize,
        noted: u64,
        tagged: u64,
    ) -> u64
        requires words { W.way ≡ by_journal }
        requires may { MayStep self.now seat.old }
        requires next { IsToWin D.verdict cell noted tagged seat.old.me.0 }
        ensures same { IsSameSeat seat.old seat.new }
        ensures told { TriesNode D.verdict
            (step self.now.table.slots cell noted tagged none) seat.old.me result seat.new.me }
    {
        self.table
            .shared
            .compare_exchange::<Try>(seat, cell, noted, tagged)
    }

    /// One release of a node, which was won last.
    pub(crate) fn free_node(&self, seat: &mut Seat<Slot, View<D>>, cell: usize, word: u64)
        requires words { W.way ≡ by_journal }
        requires may { MayStep self.now seat.old }
        requires last { IsToFreeNode D.verdict cell word seat.old.me.0 }
        ensures same { IsSameSeat seat.old seat.new }
        ensures told { ReleasesNode D.verdict
            (step self.now.table.slots cell word 0 none) seat.old.me word seat.new.me }
    {
        self.table.shared.store::<FreeNode>(seat, cell, word)
    }
}

impl<'d, D: Decider> Field<'d, D> {
    /// The word of a node as it is at some moment; None outside of the area.
    /// It has the tag, the occupant and the stamp.
    /// Nothing is promised of it: it serves tests.
    pub fn peek_node(&self, node: Node) -> Option<u64> {
        let number = self.world.area().index(node)?;
        Some(self.table.shared.peek(number as usize))
    }
}
