//! The rounds of a run by the text of their definition, and no faster.
//! It shares no line with the meter.
ghost use Rattle.std.specs.Prelude.{◌≡◌, ◌<◌, length};

use amoebot_state::{Decider, Entry, Verdict, World};
use serial_model::{Serial, Turned};
use std::alloc::Global;
use std::test::Fail;

/// A run: at each place the answer for each amoebot whether it is enabled in the world there,
/// and whose each entry is.
#[derive(Drop)]
pub struct History {
    amoebots: u16,
    enabled: Vec<Vec<bool>>,
    acted: Vec<u16>,
}

impl History {
    /// A run before its first entry.
    pub fn new<D: Decider>(alloc: Global, decider: &D, start: &World) -> Result<History, Fail> {
        let mut history = History {
            amoebots: start.bots(),
            enabled: Vec::new(alloc),
            acted: Vec::new(alloc),
        };
        history.enabled.push(enabled_in(alloc, decider, start)?)?;
        Ok(history)
    }

    /// The run with an entry more, which leads to this world.
    pub fn push<D: Decider>(
        &mut self,
        alloc: Global,
        decider: &D,
        bot: u16,
        world: &World,
    ) -> Result<(), Fail> {
        self.enabled.push(enabled_in(alloc, decider, world)?)?;
        self.acted.push(bot)?;
        Ok(())
    }

    fn rests(&self, place: usize, bot: u16) -> bool {
        match self.enabled.get(place) {
            Some(row) => match row.get(usize::from(bot)) {
                Some(enabled) => !*enabled,
                None => false,
            },
            None => false,
        }
    }

    fn acts(&self, place: usize, bot: u16) -> bool {
        match self.acted.get(place) {
            Some(other) => *other == bot,
            None => false,
        }
    }

    /// It rests at some place of `start..=k`, or acts at some place of `start..k`.
    fn is_settled(&self, bot: u16, start: usize, k: usize) -> bool {
        for place in start..k {
            if self.rests(place, bot) || self.acts(place, bot) {
                return true;
            }
        }
        self.rests(k, bot)
    }

    fn unsettled(&self, start: usize, k: usize) -> u64 {
        let mut count = 0;
        for bot in 0..self.amoebots {
            if !self.is_settled(bot, start, k) {
                count += 1;
            }
        }
        count
    }

    /// The least place above the start, within the journal, by which each amoebot is settled.
    fn end_of_round(&self, start: usize) -> Option<usize> {
        for before in start..self.acted.len() {
            if self.unsettled(start, before + 1) == 0 {
                return Some(before + 1);
            }
        }
        None
    }

    /// The rounds that end within the journal, and the amoebots that are not settled at its end
    /// in the last round that was started.
    pub fn rounds(&self) -> (u64, u64) {
        let mut start = 0;
        let mut rounds = 0;
        for _ in 0..self.acted.len() {
            match self.end_of_round(start) {
                Some(end) => {
                    start = end;
                    rounds += 1;
                }
                None => {}
            }
        }
        (rounds, self.unsettled(start, self.acted.len()))
    }
}

fn enabled_in<D: Decider>(alloc: Global, decider: &D, world: &World) -> Result<Vec<bool>, Fail> {
    let mut enabled = Vec::new(alloc);
    for bot in 0..world.bots() {
        let is_enabled = match decider.decide(&world.found(bot)) {
            Verdict::Change(_) => true,
            Verdict::Idle | Verdict::Failed(_) => false,
        };
        enabled.push(is_enabled)?;
    }
    Ok(enabled)
}

/// The entry of an amoebot's turn.
pub fn entry_of<D: Decider>(serial: &mut Serial, decider: &D, bot: u16) -> Result<Entry, Fail> {
    if bot >= serial.world().bots() {
        Err("no amoebot")?;
    }
    match serial.activate(decider, 0, 0, bot) {
        Turned::Done(entry) => Ok(entry),
        Turned::Idle | Turned::Failed(_) => Err(Fail::from("no entry")),
    }
}
