//! The table that callers share.
//! It is private to this module and those in it, so no other code touches a word or a slot.
//! It is laid out and given back here.
//! `steps`, `nodes`, `slots` and `seating` have one function for each step on a word,
//! each use of a slot, and each move of records.
ghost use Rattle.std.specs.{Prelude.{◌≡◌, ◌+◌, [], Some, IfOk, IsSome}, List.{All}};
ghost use Rattle.std.specs.Slots.{slots_items, slots_len, IsFull};
ghost use Rattle.atomic_table.specs.Table.{Final, Seen};
ghost use Rattle.amoebot_state.specs.{Configs.{bot_at}, Known.{is_wall_cell}};
ghost use Rattle.claim_core.specs.{Cells.{number}, Soundness.{IsSetup}};
ghost use Rattle.claim_rule.specs.{Manners.{slot_count}, Views.{field_terms, setup_of_terms}};
ghost use Rattle.claim_rule.specs.{Stands.{KeepsRule, first_view}, Opened.{AreSlotsAtFirst, first_words}};

mod deal;
mod nodes;
mod slots;
mod steps;

use crate::manner::{ByJournal, Manner};
use crate::rule::ClaimRule;
use crate::views::{Key, Slot, View};
use amoebot_state::{CellName, Decider, NoMemory, World, has_next, touches_zone};
use atomic_table::{Closed, Seat as TableSeat, Table};
use claim_core::Lists;
use std::alloc::Global;
use std::marker::Model;

/// The words and slots that the callers of a run share: a word for each cell and for the journal,
/// and a slot for each slotted cell and for the journal, if it has one.
/// It is seen as its table and what it is about: the decider, the first world and the lists.
#[derive(Drop)]
pub struct Field<'d, D: Decider, W: Manner = ByJournal> {
    table: Table<Slot, View<D>, Key<'d, D>, ClaimRule<W>, Global>,
    decider: &'d D,
    world: World,
}

impl<'d, D: Decider, W: Manner> Model for Field<'d, D, W> {
    ghost use Rattle.claim_rule.specs.{Tokens.{FieldOf, IsField}, Views.{field_terms}};

    ghost Value = { FieldOf D };

    ghost view = { λ f. record {
      table = f.table.shared.table_id;
      terms = field_terms f.table.shared.key.decider.now
          f.table.shared.key.world f.table.shared.key.lists.now;
    } };

    ghost invariant = { λ f. IsField D.verdict W.way (record {
      table = f.table.shared.table_id;
      terms = field_terms f.table.shared.key.decider.now
          f.table.shared.key.world f.table.shared.key.lists.now;
    }) f.decider.now f.world };
}

impl<'d, D: Decider, W: Manner> Field<'d, D, W> {
    /// The decider that `make` was given.
    pub fn decider(&self) -> &D
        ensures { result.now ≡ self.now.terms.decider }
    {
        self.decider
    }

    /// The world before the first step. What the field is about may be run.
    pub(crate) fn world(&self) -> &World
        ensures first { result.now ≡ self.now.terms.world }
        ensures run { IsSetup (setup_of_terms D.verdict self.now.terms) }
    {
        &self.world
    }

    /// Whether a cell, which has this number, is a node that is a wall.
    pub(crate) fn is_wall(&self, cell: CellName, cell_number: usize) -> bool
        requires numbered { number self.now.terms.world.area cell ≡ Some cell_number }
        ensures { result ≡ is_wall_cell self.now.terms.world cell }
    {
        match cell {
            CellName::Spot(_) => self.world.is_wall_number(cell_number as u32),
            CellName::Body(_) => false,
        }
    }

    /// A field with these words, and whose slots hold these values, with all records at one seat.
    pub(crate) fn lay_out(
        alloc: Global,
        decider: &'d D,
        world: World,
        lists: &'d Lists,
        words: Vec<u64>,
        slots: Vec<Slot>,
    ) -> Result<(Field<'d, D, W>, TableSeat<Slot, View<D>>), NoMemory>
        requires bots { All (All (λ id. IsSome (bot_at world id))) lists.now.ids }
        requires words { words.items ≡ first_words W.way world }
        requires slots { AreSlotsAtFirst W.way world lists.now slots.items }
        ensures terms { IfOk result (λ made. made.0.terms ≡ field_terms decider.now world lists.now) }
        ensures seat { IfOk result (λ made.
            (made.1.table_id ≡ made.0.table) × (made.1.me ≡ (first_view D.verdict made.0.terms, []))) }
    {
        world.keeps();
        touches_zone(decider);
        has_next(decider);
        let _callers = lists.callers();
        let key = Key {
            decider,
            world,
            lists,
        };
        match Table::new(alloc, words.as_slice(), slots, &key) {
            Ok((table, seat)) => {
                let Key {
                    decider,
                    world,
                    lists: _,
                } = key;
                let field = Field {
                    table,
                    decider,
                    world,
                };
                Ok((field, seat))
            }
            Err(_) => Err(NoMemory),
        }
    }

    /// The slots as they are at the end, with what the last seat knows, and the first world.
    pub(crate) fn give_back(
        self,
        last: TableSeat<Slot, View<D>>,
    ) -> (Closed<Slot, Global>, &'d D, World)
        requires { last.table_id ≡ self.table }
        ensures run { IsSetup (setup_of_terms D.verdict self.entry.terms) }
        ensures count { slots_len result.0.slots ≡ slot_count W.way self.entry.terms.world }
        ensures full { IsFull result.0.slots }
        ensures ends { Final (Seen (KeepsRule D.verdict self.entry.terms W.way) last.id last.me.0)
            (slots_items result.0.words) (slots_items result.0.slots) }
        ensures decider { result.1.now ≡ self.entry.terms.decider }
        ensures world { result.2 ≡ self.entry.terms.world }
    {
        let Field {
            table,
            decider,
            world,
        } = self;
        (table.close_with(last), decider, world)
    }
}
