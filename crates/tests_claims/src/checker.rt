ghost use Rattle.std.specs.Prelude.{◌<◌, length};

use amoebot_state::{ALL_PORTS, CellName, Decider, Entry, Failure, MOST_CELLS, Verdict, World};
use arrayvec::ArrayVec;
use claim_core::{Lists, Mark, Marks, Report};
use serial_model::{Serial, Turned};
use std::alloc::Global;
use std::test::Fail;

/// What a report is judged by. It knows the model, one activation at a time, and nothing of claims.
#[derive(Drop)]
struct Judge<'a, D: Decider> {
    decider: &'a D,
    first: &'a World,
    lists: &'a Lists,
    entries: &'a [Entry],
    turns: &'a Marks,
}

/// Whether the report is a good one of callers with these lists over the world,
/// and callers who claim cells in zone order can have met as its Busy say:
/// at places and in turns that allow it, and at a cell that the other turn can have held.
pub fn is_report<D: Decider>(
    alloc: Global,
    decider: &D,
    first: &World,
    lists: &Lists,
    report: &Report,
) -> Result<bool, Fail> {
    let judge = Judge {
        decider,
        first,
        lists,
        entries: report.journal.entries(),
        turns: &report.turns,
    };
    if !report.journal.first().same(first) || !judge.has_order() || !judge.has_marks() {
        return Ok(false);
    }
    let Some(last) = judge.world_at(alloc, judge.places())? else {
        return Ok(false);
    };
    if !last.same(&report.world) {
        return Ok(false);
    }
    for caller in 0..lists.callers() {
        for turn in 0..lists.turns() {
            if !judge.is_right(alloc, caller, turn)? {
                return Ok(false);
            }
        }
    }
    Ok(true)
}

impl<D: Decider> Judge<'_, D> {
    /// The number of entries, which is the last place.
    fn places(&self) -> u32 {
        u32::try_from(self.entries.len()).unwrap_or(u32::MAX)
    }

    /// The amoebot of a caller's turn, if the lists have that turn.
    fn bot(&self, caller: u8, turn: u32) -> Option<u16> {
        if caller < self.lists.callers() && turn < self.lists.turns() {
            Some(self.lists.bot(caller, turn))
        } else {
            None
        }
    }

    /// The mark of a caller's turn, if it has one.
    fn mark(&self, caller: u8, turn: u32) -> Option<Mark> {
        if caller < self.turns.callers() && turn < self.turns.count(caller) {
            Some(self.turns.mark(caller, turn))
        } else {
            None
        }
    }

    /// Whether each entry is one of a turn of the lists, and the turns of one caller
    /// rise strictly along the journal.
    fn has_order(&self) -> bool {
        for (place, entry) in self.entries.iter().enumerate() {
            if self.bot(entry.caller, entry.turn) != Some(entry.bot) {
                return false;
            }
            for (later_place, later) in self.entries.iter().enumerate() {
                let is_later = place < later_place && entry.caller == later.caller;
                if is_later && entry.turn >= later.turn {
                    return false;
                }
            }
        }
        true
    }

    /// Whether each turn has one mark, and the turn of each entry is Done at its place.
    fn has_marks(&self) -> bool {
        if self.turns.callers() != self.lists.callers() {
            return false;
        }
        for caller in 0..self.turns.callers() {
            if self.turns.count(caller) != self.lists.turns() {
                return false;
            }
        }
        for (place, entry) in self.entries.iter().enumerate() {
            let place = u32::try_from(place).unwrap_or(u32::MAX);
            if self.mark(entry.caller, entry.turn) != Some(Mark::Done { place }) {
                return false;
            }
        }
        true
    }

    /// The world that so many entries lead to, if each of them is a step of the model.
    fn world_at(&self, alloc: Global, place: u32) -> Result<Option<World>, Fail> {
        let mut serial = Serial::new(self.first.copy(alloc)?);
        for (number, entry) in self.entries.iter().enumerate() {
            if number < place as usize && !makes(self.decider, &mut serial, entry) {
                return Ok(None);
            }
        }
        Ok(Some(serial.into_world()))
    }

    /// Whether the mark of a turn is right, and its place no less than what
    /// the caller has seen by its earlier turn.
    fn is_right(&self, alloc: Global, caller: u8, turn: u32) -> Result<bool, Fail> {
        let (Some(bot), Some(mark)) = (self.bot(caller, turn), self.mark(caller, turn)) else {
            return Ok(false);
        };
        let place = place_of(mark);
        if place > self.places() || place < self.seen_before(caller, turn) {
            return Ok(false);
        }
        match self.world_at(alloc, place)? {
            Some(world) => self.is_right_in(alloc, &world, caller, turn, bot, mark),
            None => Ok(false),
        }
    }

    /// Whether the mark of a turn of an amoebot is right, which found this world.
    fn is_right_in(
        &self,
        alloc: Global,
        world: &World,
        caller: u8,
        turn: u32,
        bot: u16,
        mark: Mark,
    ) -> Result<bool, Fail> {
        match mark {
            Mark::Done { place } => Ok(self.is_entry_of(place, caller, turn)),
            Mark::Idle { .. } => Ok(decides(self.decider, world, bot, None)),
            Mark::Failed { failure, .. } => Ok(decides(self.decider, world, bot, Some(failure))),
            Mark::Busy {
                cell,
                by_caller,
                by_turn,
                by_bot,
                place,
            } => Ok(
                zone_place(world, bot, cell).is_some()
                    && self.bot(by_caller, by_turn) == Some(by_bot)
                    && self.can_meet(caller, turn, place, by_caller, by_turn)
                    && self.may_hold(alloc, by_caller, by_turn, by_bot, cell)?,
            ),
        }
    }

    /// Whether a turn that looked at a place can have met a turn of another caller:
    /// neither had begun when the other one was over.
    fn can_meet(&self, caller: u8, turn: u32, place: u32, by_caller: u8, by_turn: u32) -> bool {
        by_caller != caller
            && self.seen_before(by_caller, by_turn) <= place
            && self.seen_before(caller, turn) <= self.seen_after(by_caller, by_turn)
    }

    /// Whether the entry at a place is that turn's.
    fn is_entry_of(&self, place: u32, caller: u8, turn: u32) -> bool {
        match self.entries.get(place as usize) {
            Some(entry) => entry.caller == caller && entry.turn == turn,
            None => false,
        }
    }

    /// The least place at which a turn can begin: that of the mark of the caller's turn before,
    /// and above it where that is Done.
    fn seen_before(&self, caller: u8, turn: u32) -> u32 {
        if turn == 0 {
            return 0;
        }
        match self.mark(caller, turn - 1) {
            Some(Mark::Done { place }) => place.saturating_add(1),
            Some(mark) => place_of(mark),
            None => 0,
        }
    }

    /// The greatest place at which a turn can hold cells:
    /// that of the mark of the caller's next turn, or the last place.
    fn seen_after(&self, caller: u8, turn: u32) -> u32 {
        match self.mark(caller, turn.saturating_add(1)) {
            Some(mark) => place_of(mark),
            None => self.places(),
        }
    }

    /// Whether a turn can have held a cell: it is in the amoebot's zone
    /// at the place of the turn's mark.
    /// Where the turn was refused a cell itself, the cell also stands before that one.
    fn may_hold(
        &self,
        alloc: Global,
        caller: u8,
        turn: u32,
        bot: u16,
        cell: CellName,
    ) -> Result<bool, Fail> {
        let Some(mark) = self.mark(caller, turn) else {
            return Ok(false);
        };
        let Some(world) = self.world_at(alloc, place_of(mark))? else {
            return Ok(false);
        };
        let Some(place) = zone_place(&world, bot, cell) else {
            return Ok(false);
        };
        match mark {
            Mark::Busy { cell: refused, .. } => match zone_place(&world, bot, refused) {
                Some(end) => Ok(place < end),
                None => Ok(false),
            },
            Mark::Done { .. } | Mark::Idle { .. } | Mark::Failed { .. } => Ok(true),
        }
    }
}

/// Makes the activation of an entry; whether it does what the entry says.
fn makes<D: Decider>(decider: &D, serial: &mut Serial, entry: &Entry) -> bool {
    if entry.bot >= serial.world().bots() {
        return false;
    }
    match serial.activate(decider, entry.caller, entry.turn, entry.bot) {
        Turned::Done(made) => {
            made.action == entry.action
                && made.moved == entry.moved
                && made.patch.triples() == entry.patch.triples()
        }
        Turned::Idle | Turned::Failed(_) => false,
    }
}

/// Whether an amoebot of the world fails so, or is idle where no failure is given.
fn decides<D: Decider>(decider: &D, world: &World, bot: u16, failure: Option<Failure>) -> bool {
    if bot >= world.bots() {
        return false;
    }
    match decider.decide(&world.found(bot)) {
        Verdict::Idle => failure.is_none(),
        Verdict::Failed(why) => failure == Some(why),
        Verdict::Change(_) => false,
    }
}

fn place_of(mark: Mark) -> u32 {
    match mark {
        Mark::Done { place } => place,
        Mark::Idle { place } => place,
        Mark::Failed { place, .. } => place,
        Mark::Busy { place, .. } => place,
    }
}

/// Room for the cells of a zone: at most 10 nodes and 9 bodies.
type Zone = ArrayVec<CellName, MOST_CELLS>;

/// The place of a cell in the zone of an amoebot, if it is there.
fn zone_place(world: &World, bot: u16, cell: CellName) -> Option<usize> {
    if bot >= world.bots() {
        return None;
    }
    zone_of(world, bot)
        .as_slice()
        .iter()
        .position(|other| *other == cell)
}

/// The zone of an amoebot: its body, its head, its tail,
/// the nodes behind its ports in port order that lie in the area,
/// and the bodies of the amoebots on these nodes; each cell once.
fn zone_of(world: &World, bot: u16) -> Zone
    requires { bot < length world.now.bots }
{
    let own = world.bot(bot);
    let area = world.area();
    let mut zone = ArrayVec::new();
    list(&mut zone, CellName::Body(bot));
    list(&mut zone, CellName::Spot(own.head));
    list(&mut zone, CellName::Spot(own.tail));
    for port in ALL_PORTS.iter() {
        if own.is_port(*port) {
            let node = own.behind(*port);
            if area.index(node).is_some() {
                list(&mut zone, CellName::Spot(node));
            }
        }
    }
    for place in 0..zone.len() {
        if let Some(CellName::Spot(node)) = zone.as_slice().get(place).copied() {
            if let Some(id) = world.occupant(node) {
                list(&mut zone, CellName::Body(id));
            }
        }
    }
    zone
}

fn list(zone: &mut Zone, cell: CellName) {
    if !zone.is_full() && !zone.as_slice().iter().any(|other| *other == cell) {
        zone.push(cell);
    }
}
