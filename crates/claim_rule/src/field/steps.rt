//! The steps on words that callers make.
ghost use Rattle.std.specs.Prelude.{◌≡◌, ◌<◌, ◌≤◌, ◌*◌};
ghost use mathlib.Core.Option.{none};
ghost use Rattle.atomic_table.specs.Table.{step};
ghost use Rattle.claim_core.specs.{Cells.{cells}, Limits.{most_turns}};
ghost use Rattle.claim_rule.specs.{Views.{own, goes_on}, Stands.{journal_slot}};
ghost use Rattle.claim_rule.specs.Plays.{IsToTry, IsToFree, IsToRead, about, marked_at, Claims, Releases};
ghost use Rattle.claim_rule.specs.Plays.{ReadsLength};
ghost use Rattle.claim_rule.specs.Commits.{Takes, IsToCommit, TriesJournal, stored, drew};
ghost use Rattle.claim_rule.specs.Internal.{MayStep, IsSameSeat};

use crate::field::Field;
use crate::manner::{ByTicket, Manner};
use crate::rule::{Claim, Commit, Draw, Free, Read, Take};
use crate::views::{Slot, View};
use amoebot_state::Decider;
use atomic_table::Seat;
use claim_core::cells_of;

impl<'d, D: Decider, W: Manner> Field<'d, D, W> {
    /// One try to claim the slotted cell with this number.
    /// It returns the tag that was found, 0 where the cell is won.
    pub(crate) fn claim(&self, seat: &mut Seat<Slot, View<D>>, cell: usize, tag: u64) -> u64
        requires may { MayStep self.now seat.old }
        requires next { IsToTry D.verdict W.way cell tag seat.old.me.0 }
        ensures same { IsSameSeat seat.old seat.new }
        ensures told { Claims D.verdict W.way
            (step self.now.table.slots cell 0 tag none) seat.old.me result seat.new.me }
    {
        self.table
            .shared
            .compare_exchange::<Claim<W>>(seat, cell, 0, tag)
    }

    /// One release, of the slotted cell with this number, which was won last.
    pub(crate) fn free(&self, seat: &mut Seat<Slot, View<D>>, cell: usize)
        requires may { MayStep self.now seat.old }
        requires last { IsToFree D.verdict W.way cell seat.old.me }
        ensures same { IsSameSeat seat.old seat.new }
        ensures told { Releases D.verdict
            (step self.now.table.slots cell 0 0 none) seat.old.me 0 seat.new.me }
    {
        self.table.shared.store::<Free>(seat, cell, 0)
    }

    /// One look at the word that tells the journal's length.
    pub(crate) fn read(&self, seat: &mut Seat<Slot, View<D>>) -> u64
        requires may { MayStep self.now seat.old }
        requires reads { IsToRead (own seat.old.me.0).caller.phase }
        ensures same { IsSameSeat seat.old seat.new }
        ensures told { ReadsLength D.verdict W.way
            (step self.now.table.slots (cells self.now.terms.world) 0 0 none)
            seat.old.me result seat.new.me }
    {
        let journal = self.journal_number();
        self.table.shared.load::<Read<W>>(seat, journal)
    }

    /// The journal's length, for the mark of the turn.
    pub(crate) fn place(&self, seat: &mut Seat<Slot, View<D>>) -> u32
        requires may { MayStep self.now seat.old }
        requires reads { IsToRead (own seat.old.me.0).caller.phase }
        ensures same { IsSameSeat seat.old seat.new }
        ensures marked { seat.new.me.0 ≡ goes_on seat.old.me.0
            (marked_at (about D.verdict seat.old.me.0) (own seat.old.me.0).caller result) }
        ensures out { seat.new.me.1 ≡ seat.old.me.1 }
        ensures few { result ≤ most_turns }
    {
        W::length(self.read(seat)) as u32
    }

    /// The number of the word that tells the journal's length, behind those of the cells.
    pub(crate) fn journal_number(&self) -> usize
        ensures number { result ≡ cells self.now.terms.world }
        ensures word { result < self.now.table.words }
    {
        cells_of(&self.world)
    }
}

impl<'d, D: Decider> Field<'d, D> {
    /// One try to take the journal.
    /// It returns the journal's word as it was found, which is odd where another caller has it.
    pub(crate) fn take_journal(&self, seat: &mut Seat<Slot, View<D>>) -> u64
        requires may { MayStep self.now seat.old }
        requires takes { Takes (own seat.old.me.0).caller.phase }
        ensures same { IsSameSeat seat.old seat.new }
        ensures told { TriesJournal D.verdict
            (step self.now.table.slots (cells self.now.terms.world) 1 0 none) seat.old.me result seat.new.me }
    {
        let journal = self.journal_number();
        self.table.shared.fetch_or::<Take>(seat, journal, 1)
    }

    /// Whether another caller had the journal at some moment.
    /// It is no step, and nothing is promised of it.
    pub fn is_journal_taken(&self) -> bool {
        let journal = self.journal_number();
        self.table.shared.peek(journal) % 2 != 0
    }

    /// Frees the journal, which has this length now: the commit.
    pub(crate) fn store_length(&self, seat: &mut Seat<Slot, View<D>>, length: u64)
        requires may { MayStep self.now seat.old }
        requires few { length ≤ most_turns }
        requires commits { IsToCommit D.verdict (journal_slot self.now.terms.world) (2 * length) seat.old.me }
        ensures same { IsSameSeat seat.old seat.new }
        ensures told { stored D.verdict
            (step self.now.table.slots (cells self.now.terms.world) (2 * length) 0 none)
            seat.old.me (2 * length) seat.new.me }
    {
        let journal = self.journal_number();
        self.table.shared.store::<Commit>(seat, journal, 2 * length)
    }

    /// The number of the journal's slot, behind those of the bodies.
    pub(crate) fn journal_slot(&self) -> usize
        ensures { result ≡ journal_slot self.now.terms.world }
    {
        usize::from(self.world.bots())
    }
}

impl<'d, D: Decider> Field<'d, D, ByTicket> {
    /// Draws the place of a commit: the number of entries before it.
    pub(crate) fn draw_place(&self, seat: &mut Seat<Slot, View<D>>) -> u64
        requires may { MayStep self.now seat.old }
        requires takes { Takes (own seat.old.me.0).caller.phase }
        ensures same { IsSameSeat seat.old seat.new }
        ensures told { drew D.verdict
            (step self.now.table.slots (cells self.now.terms.world) 1 0 none) seat.old.me result seat.new.me }
    {
        let last = self.journal_number();
        self.table.shared.fetch_add::<Draw>(seat, last, 1)
    }
}
