//! The rounds of a run by their definition, and no faster.
//! Whether each amoebot is enabled at each place is a table,
//! and each question of the definition is a loop over places.

use amoebot_state::{Decider, Entry, Verdict, World};
use serial_model::Serial;
use std::alloc::Global;
use std::test::Fail;

/// A run: for each amoebot whether it is enabled, one answer for each place;
/// and the amoebot of each entry.
#[derive(Drop)]
pub struct Table {
    enabled: Vec<Vec<bool>>,
    acting: Vec<u16>,
}

impl Table {
    /// The table of a run, each entry of which is a step.
    pub fn of<D: Decider>(
        alloc: Global,
        decider: &D,
        start: World,
        entries: &[Entry],
    ) -> Result<Table, Fail> {
        let mut table = Table {
            enabled: Vec::new(alloc),
            acting: Vec::new(alloc),
        };
        for _bot in 0..start.bots() {
            table.enabled.push(Vec::new(alloc))?;
        }
        let mut serial = Serial::new(start);
        table.add_place(decider, serial.world())?;
        for entry in entries {
            if entry.bot >= serial.world().bots() {
                Err("no amoebot")?;
            }
            serial.follow(decider, &entry.plain()).ok_or("no step")?;
            table.acting.push(entry.bot)?;
            table.add_place(decider, serial.world())?;
        }
        Ok(table)
    }

    /// Asks each amoebot in the world at the next place.
    fn add_place<D: Decider>(&mut self, decider: &D, world: &World) -> Result<(), Fail> {
        for bot in 0..world.bots() {
            let answer = is_enabled(decider, world, bot);
            let answers = self.enabled.get_mut(usize::from(bot));
            answers.ok_or("no amoebot")?.push(answer)?;
        }
        Ok(())
    }

    /// From a start, an amoebot is settled by a place.
    fn is_settled(&self, bot: usize, start: usize, by: usize) -> bool {
        let acted = match self.acting.get(start..by) {
            Some(acting) => acting.iter().any(|other| usize::from(*other) == bot),
            None => false,
        };
        let rested = match self.enabled.get(bot) {
            Some(answers) => answers.iter().enumerate().any(|(place, enabled)| start <= place
                && place <= by
                && !*enabled),
            None => false,
        };
        acted || rested
    }

    /// How many amoebots are not settled by a place.
    fn waiting(&self, start: usize, by: usize) -> u32 {
        let mut waiting: u32 = 0;
        for bot in 0..self.enabled.len() {
            if !self.is_settled(bot, start, by) {
                waiting = waiting.saturating_add(1);
            }
        }
        waiting
    }

    /// How many rounds end within the journal, and how many amoebots wait at its end.
    pub fn rounds(&self) -> (u32, u32) {
        let mut start = 0;
        let mut rounds: u32 = 0;
        for (before, _bot) in self.acting.iter().enumerate() {
            let place = before.saturating_add(1);
            if self.waiting(start, place) == 0 {
                start = place;
                rounds = rounds.saturating_add(1);
            }
        }
        (rounds, self.waiting(start, self.acting.len()))
    }
}

fn is_enabled<D: Decider>(decider: &D, world: &World, bot: u16) -> bool {
    if bot >= world.bots() {
        return false;
    }
    matches!(decider.decide(&world.found(bot)), Verdict::Change(_))
}
