ghost use Rattle.std.specs.Prelude.{◌≡◌, IfOk};
ghost use Rattle.claim_rule.specs.Tokens.{IsOf, number_in};

use activation::{Gate, Turn, activate};
use amoebot_state::Decider;
use claim_core::{Journal, Lists};
use claim_rule::{Field, Seat};
use std::process::Abort;
use std::sync::Wait;
use std::sync::atomic::{AtomicU64, Ordering};
use std::test::Fail;

/// A gate that counts its calls.
#[derive(Drop)]
pub struct Counter {
    calls: AtomicU64,
}

impl Counter {
    pub fn new() -> Counter {
        Counter {
            calls: AtomicU64::new(0),
        }
    }

    pub fn calls(&self) -> u64 {
        self.calls.load(Ordering::SeqCst)
    }
}

impl Gate for Counter {
    fn claimed(&self, _caller: u8, _turn: u32) {
        self.calls.fetch_add(1, Ordering::SeqCst);
    }
}

/// The seat's next turn, whole.
pub fn turn_of<R: Wait, D: Decider, G: Gate>(
    rt: &R,
    field: &Field<'_, D>,
    lists: &Lists,
    gate: &G,
    seat: Seat<D>,
) -> Result<(Seat<D>, Turn), Fail>
    requires of { IsOf field.now seat }
    requires lists { field.now.terms.lists ≡ lists.now }
    ensures of { IfOk result (λ after. IsOf field.now after.0) }
    ensures same { IfOk result (λ after. number_in after.0 ≡ number_in seat) }
{
    let turn = seat.next_turn();
    let caller = seat.caller();
    if caller >= lists.callers() || turn >= lists.turns() {
        return Err(Fail::from("no turn is left"));
    }
    Ok(activate(rt, field, seat, gate, turn, lists.bot(caller, turn)))
}

/// The entries are of these callers, turns and amoebots, and each sets variable 0 of its amoebot.
pub fn are_entries(rt: &impl Abort, journal: &Journal, expected: &[(u8, u32, u16)]) {
    let entries = journal.entries();
    assert!(rt; entries.len() == expected.len());
    for (entry, turn) in entries.iter().zip(expected) {
        assert!(rt; (entry.caller, entry.turn, entry.bot) == *turn);
        assert!(rt; entry.action == 0 && entry.patch.triples().len() == 1);
    }
}
