ghost use Rattle.std.specs.Prelude.{◌≡◌};
ghost use Rattle.node_claims.specs.Answers.{caller_of, turn_of, mark_of};

use amoebot_state::Failure;
use claim_core::Mark;
use claim_rule::{ByJournal, Receipt, Refused, Seen};

/// What became of a turn.
/// What it carries is made by steps on a field's words alone, all of one way of committing.
#[derive(Drop)]
pub enum Turn<W = ByJournal> {
    /// It committed its change.
    Done(Receipt<W>),
    /// No action was enabled.
    Idle(Seen<W>),
    /// Its action failed.
    Failed(Failure, Seen<W>),
    /// Another caller held a cell of its zone.
    Busy(Refused<W>),
}

impl<W> Turn<W> {
    /// The caller whose turn it was, and its number among the caller's turns.
    fn whose(&self) -> (u8, u32)
        ensures { result ≡ (caller_of self.now, turn_of self.now) }
    {
        match self {
            Turn::Done(receipt) => (receipt.caller(), receipt.turn()),
            Turn::Idle(seen) | Turn::Failed(_, seen) => (seen.caller(), seen.turn()),
            Turn::Busy(refused) => (refused.caller(), refused.turn()),
        }
    }

    /// The caller whose turn it was.
    pub fn caller(&self) -> u8
        ensures { result ≡ caller_of self.now }
    {
        self.whose().0
    }

    /// Its number among the caller's turns.
    pub fn turn(&self) -> u32
        ensures { result ≡ turn_of self.now }
    {
        self.whose().1
    }

    /// Its mark.
    pub fn mark(&self) -> Mark
        ensures { result ≡ mark_of self.now }
    {
        match self {
            Turn::Done(receipt) => Mark::Done {
                place: receipt.place(),
            },
            Turn::Idle(seen) => Mark::Idle {
                place: seen.place(),
            },
            Turn::Failed(failure, seen) => Mark::Failed {
                failure: *failure,
                place: seen.place(),
            },
            Turn::Busy(refused) => Mark::Busy {
                cell: refused.cell(),
                by_caller: refused.by_caller(),
                by_turn: refused.by_turn(),
                by_bot: refused.by_bot(),
                place: refused.place(),
            },
        }
    }
}
