//! What holds of answers. The function does nothing: its clause is the law.
ghost use Rattle.node_claims.specs.Laws.{AnswerIsUnique};

use amoebot_state::Decider;

/// What an activation leaves of a seat has at most one answer.
pub fn answer_is_unique<D: Decider, W>(_decider: &D)
    ensures { AnswerIsUnique W D.verdict }
{}
