ghost use Rattle.std.specs.Prelude.{◌≡◌};
ghost use Rattle.claim_rule.specs.Tokens.{FieldOf, Token};
ghost use Rattle.node_claims.specs.{declared.turn.Turn.{Turn}, Answers.{mark_of}};

use amoebot_state::Decider;
use claim_core::Mark;

/// What turns on a field are made of, with the way of committing `W`.
/// A caller's seat may hold more than its token, and an answer more than what became of the turn.
pub trait TurnMaker<D: Decider, W>: Sync {
    /// What a caller has between two turns.
    type Seat: Send + Drop;

    /// What a turn is answered with.
    type Answer: Send + Drop;

    /// The field on which the turns are made.
    ghost field: { Self → FieldOf D };

    /// What a seat's caller knows.
    ghost token: { Self.Seat → Token D };

    /// What became of the turn.
    ghost told: { Self.Answer → Turn W };

    /// The mark of a turn with this answer.
    fn mark(&self, answer: &Self::Answer) -> Mark
        ensures { result ≡ mark_of (told answer.now) };
}
