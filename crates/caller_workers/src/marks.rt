ghost use Rattle.std.specs.{Prelude.{◌≡◌, ◌≤◌, ◌<◌, ◌+◌, length, map}, List.{All}};
ghost use Rattle.claim_core.specs.Turns.{AreFew, marks_of, no_marks};
ghost use Rattle.node_claims.specs.Answers.{mark_of};
ghost use Rattle.caller_workers.specs.{Turns.{lists_told, marks_in}, WorkerStates.{with_marks}};

use crate::turn_maker::TurnMaker;
use amoebot_state::Decider;
use claim_core::Marks;

/// Copies the marks of all turns, for which there is room. It takes no memory.
pub fn copy_marks<D: Decider, W, T: TurnMaker<D, W>>(
    turning: &T,
    marks: &mut Marks,
    turns: &[Vec<T::Answer>],
)
    requires few { AreFew (length turns.now) marks.old.turns }
    requires all { All (λ own. length own ≡ marks.old.turns) (lists_told T.told turns.now) }
    requires none { marks.old ≡ no_marks (length turns.now) marks.old.turns }
    ensures { marks.new
        ≡ record { turns = marks.old.turns; marks = map marks_in (lists_told T.told turns.now) } }
{
    let mut caller = 0;
    for own in turns {
        copy_own(turning, marks, caller, own.as_slice());
        caller += 1;
    }
}

/// Copies the marks of one caller's turns, behind those that the caller has.
fn copy_own<D: Decider, W, T: TurnMaker<D, W>>(
    turning: &T,
    marks: &mut Marks,
    caller: u8,
    own: &[T::Answer],
)
    requires caller { caller < length marks.old.marks }
    requires room { length (marks_of marks.old caller) + length own.now ≤ marks.old.turns }
    ensures { marks.new ≡ with_marks marks.old caller (map (λ answer. mark_of (T.told answer)) own.now) }
{
    for answer in own {
        marks.add(caller, turning.mark(answer));
    }
}
