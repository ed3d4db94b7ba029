ghost use Rattle.std.specs.Prelude.{◌≡◌, ◌<◌, length, map, Some};
ghost use Rattle.caller_workers.specs.Turns.{turn_at, turns_of};

use std::marker::Model;

/// What each turn of each caller was answered with.
#[derive(Drop)]
pub struct Turns<A> {
    turns: Vec<Vec<A>>,
}

impl<A> Model for Turns<A> {
    ghost use Rattle.std.specs.Prelude.{List, map};

    ghost Value = { List (List A) };

    ghost view = { λ t. map (λ own. own.items) t.turns.items };
}

impl<A> Turns<A> {
    /// These answers, of each caller in the order of its turns.
    pub fn of(turns: Vec<Vec<A>>) -> Turns<A>
        ensures { result ≡ map (λ own. own.items) turns.items }
    {
        Turns { turns }
    }

    /// What a turn of a caller of the lists was answered with.
    pub fn turn(&self, caller: u8, turn: u32) -> &A
        requires caller { caller < length self.now }
        requires turn { turn < length (turns_of self.now caller) }
        ensures { turn_at self.now caller turn ≡ Some result.now }
    {
        &self.turns[usize::from(caller)][turn as usize]
    }
}
