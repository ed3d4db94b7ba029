ghost use Rattle.std.specs.{Prelude.{◌≡◌, ◌≤◌, length, IfOk, IsSome}, List.{All}};
ghost use Rattle.amoebot_state.specs.Configs.{bot_at};
ghost use Rattle.claim_rule.specs.{Views.{field_terms}, Opened.{first_seats}};

use crate::own::own_lists;
use crate::seats::TicketSeats;
use amoebot_state::{Decider, NoMemory, World};
use claim_core::{Journal, Lists};
use claim_rule::{ByTicket, Field};
use std::alloc::Global;
use std::marker::Model;

/// A field whose callers draw the places of their commits, and all memory that its end needs.
/// While they work there is no journal.
/// It is seen as its table and what it is about: the decider, the first world and the lists.
#[derive(Drop)]
pub struct TicketField<'d, D: Decider> {
    pub(crate) field: Field<'d, D, ByTicket>,
    /// What `close` fills: it has the first world, no entry, and room for those of all turns.
    pub(crate) journal: Journal,
}

impl<'d, D: Decider> Model for TicketField<'d, D> {
    ghost use Rattle.claim_rule.specs.Tokens.{FieldOf};
    ghost use Rattle.ticket_commit.specs.Own.{HasMergeRoom};

    ghost Value = { FieldOf D };

    ghost view = { λ f. f.field };

    ghost invariant = { λ f. HasMergeRoom f.field f.journal };
}

impl<'d, D: Decider> TicketField<'d, D> {
    /// A field over a world, for callers with these lists of ids of amoebots of it,
    /// and a seat for each caller.
    /// It takes all memory that the callers and `close` need.
    pub fn make(
        alloc: Global,
        decider: &'d D,
        world: World,
        lists: &'d Lists,
    ) -> Result<(TicketField<'d, D>, TicketSeats<D>), NoMemory>
        requires some { 1 ≤ length lists.now.ids }
        requires bots { All (All (λ id. IsSome (bot_at world id))) lists.now.ids }
        ensures terms { IfOk result (λ made. made.0.terms ≡ field_terms decider.now world lists.now) }
        ensures seats { IfOk result (λ made. made.1 ≡ first_seats D.verdict made.0) }
        ensures all { IfOk result (λ made. All (λ seat. IsSome seat) made.1.seats) }
    {
        let mut journal = Journal::make(alloc, &world)?;
        journal.reserve(alloc, lists.all_turns())?;
        let own = own_lists(alloc, lists.callers(), lists.turns())?;
        let (field, seats) = Field::make_tickets(alloc, decider, world, lists)?;
        let field = TicketField { field, journal };
        Ok((field, TicketSeats { seats, own }))
    }

    /// The decider that `make` was given.
    pub fn decider(&self) -> &D
        ensures { result.now ≡ self.now.terms.decider }
    {
        self.field.decider()
    }
}
