ghost use Rattle.std.specs.Prelude.{◌≡◌, ◌<◌, ◌≤◌, ◌+◌, [], length, map, replicate, IfOk, IsSome, Ok};
ghost use Rattle.std.specs.{Prelude.{slice_get, Some, None, IsTrue, ◌↔◌}, List.{All}};
ghost use Rattle.claim_core.specs.{Turns.{AreLists, no_marks}, SerialRuns.{all_turns}, Tags.{tag_caller}};
ghost use Rattle.claim_core.specs.Cells.{held_by};
ghost use Rattle.claim_core.specs.{Machine.{phase_of_verdict, busy_mark, mark_of_look, next}, Good.{Good}};
ghost use Rattle.claim_core.specs.Reached.{HaveEnded, IsReachedState, IsReportOf, Reached};
ghost use Rattle.claim_core.specs.{Soundness.{IsSetup, Sound}, StepRounds.{step_round}};
ghost use Rattle.claim_core.specs.Cores.{Begins, Frees, IsFinished, opening_core, HasPhase, HasTurn};
ghost use Rattle.claim_core.specs.Cores.{HoldsCells, IsCoreCaller, IsUnmarked, IsCell, looks_at, opens_by};
ghost use Rattle.claim_core.specs.Cores.{phase_after, stepped, setup_of};
ghost use Rattle.claim_core.specs.declared.state.Phase.TheVariants as phase;
ghost use Rattle.tri_lattice.specs.Extent.{Extent};
ghost use Rattle.amoebot_state.specs.{Zones.{IsShown, Shown, shown_with}, Known.{next_cell}, Ways.{reading}};
ghost use Rattle.amoebot_state.specs.{Configs.{bot_at}, declared.verdict.Change.{Change}};

use crate::cells::{cell_number, cells_of};
use crate::journal::Journal;
use crate::lists::Lists;
use crate::marks::{Mark, Marks};
use crate::owner::{tag, tag_bot, tag_caller, tag_turn};
use crate::report::Report;
use crate::state::{Look, Phase};
use amoebot_state::{
    CELL_ROOM, Cell, CellName, Decider, Entry, Found, KnownZone, NoMemory, Verdict, World,
    has_next, touches_zone,
};
use arrayvec::ArrayVec;
use std::alloc::Global;
use std::marker::Model;
use std::mem::replace;

/// A caller: its turn, what it does next, what is known of its amoebot's zone while it claims,
/// and the cells that it holds, in the order in which they were won,
/// each with its value as it was recorded.
#[derive(Drop)]
struct CoreCaller {
    turn: u32,
    phase: Phase,
    zone: KnownZone,
    held: ArrayVec<(CellName, Cell), CELL_ROOM>,
}

impl CoreCaller {
    /// A caller that begins a turn, of so many.
    fn at(turn: u32, turns: u32) -> CoreCaller
        ensures { Begins turns turn result }
    {
        CoreCaller {
            turn,
            phase: opening_phase(turn, turns),
            zone: KnownZone::new(0),
            held: ArrayVec::new(),
        }
    }

    /// Goes on to free what is held; where that is nothing, the next turn begins.
    fn free(&mut self, turns: u32)
        requires { self.old.turn < turns }
        ensures { Frees turns self.old self.new }
    {
        if self.held.is_empty() {
            self.turn += 1;
            self.phase = opening_phase(self.turn, turns);
        } else {
            match self.phase {
                Phase::Releasing => {}
                _ => self.phase = Phase::Releasing,
            }
        }
    }

    /// Goes on after a cell was won, of which all that is held is known:
    /// with the last one of the zone comes the decision.
    fn go_on<D: Decider>(&mut self, decider: &D, found: &mut Option<Found>, world: &World, bot: u16)
        requires claims { self.old.phase ≡ phase.Claim }
        requires knows { self.old.zone ≡ reading world.now.area bot self.old.held.items }
        requires whole { next_cell world.now.area bot self.old.held.items ≡ None
            → IsShown (shown_with world.now bot self.old.held.items) }
        ensures { self.new ≡ record self.old {
          phase = phase_after (D.verdict decider.now) (shown_with world.now bot self.old.held.items)
              (next_cell world.now.area bot self.old.held.items);
        } }
    {
        if self.zone.next(self.held.len()).is_none() {
            seal(found, world, bot, &self.zone, self.held.as_slice());
            self.phase = decided(decider, found);
        }
    }
}

/// The phase in which a turn begins, of so many.
fn opening_phase(turn: u32, turns: u32) -> Phase
    ensures { result ≡ opens_by turns turn }
{
    if turn < turns {
        Phase::Claim
    } else {
        Phase::Ended
    }
}

/// A part, and the next one where that was made.
/// A caller that puts its part in here owns none at its `?`, which leaves it less to prove.
fn beside<A: Drop, B: Drop>(before: A, next: Result<B, NoMemory>) -> Result<(A, B), NoMemory>
    ensures { IfOk result (λ r. (r.0 ≡ before) × (next ≡ Ok r.1)) }
{
    match next {
        Ok(next) => Ok((before, next)),
        Err(error) => Err(error),
    }
}

/// The journal and the marks of a run of these lists from this world, before its first step.
fn first_records(alloc: Global, world: &World, lists: &Lists) -> Result<(Journal, Marks), NoMemory>
    ensures first { IfOk result (λ r. r.0.first ≡ world.now) }
    ensures entries { IfOk result (λ r. r.0.entries ≡ []) }
    ensures room { IfOk result (λ r. all_turns lists.now ≤ r.0.spare) }
    ensures marks { IfOk result (λ r. r.1 ≡ no_marks (length lists.now.ids) lists.now.turns) }
{
    let journal = first_journal(alloc, world, lists.all_turns())?;
    beside(journal, Marks::make(alloc, lists.callers(), lists.turns()))
}

/// The journal of a run from this world, with room for so many entries.
fn first_journal(alloc: Global, world: &World, room: u32) -> Result<Journal, NoMemory>
    ensures first { IfOk result (λ j. j.first ≡ world.now) }
    ensures entries { IfOk result (λ j. j.entries ≡ []) }
    ensures room { IfOk result (λ j. room ≤ j.spare) }
{
    let mut journal = Journal::make(alloc, world)?;
    journal.reserve(alloc, room)?;
    Ok(journal)
}

/// So many tags, of cells that nobody holds, and the callers of these lists at their first turns.
fn first_places(
    alloc: Global,
    cells: usize,
    lists: &Lists,
) -> Result<(Vec<u64>, Vec<CoreCaller>), NoMemory>
    ensures tags { IfOk result (λ r. r.0.items ≡ replicate cells 0) }
    ensures many { IfOk result (λ r. length r.1.items ≡ length lists.now.ids) }
    ensures begin { IfOk result (λ r. All (Begins lists.now.turns 0) r.1.items) }
    ensures lists { AreLists lists.now }
{
    let callers = lists.callers();
    let tags = free_tags(alloc, cells)?;
    beside(tags, first_seats(alloc, callers, lists.turns()))
}

fn free_tags(alloc: Global, cells: usize) -> Result<Vec<u64>, NoMemory>
    ensures { IfOk result (λ tags. tags.items ≡ replicate cells 0) }
{
    let mut tags = Vec::new(alloc);
    tags.resize(cells, 0)?;
    Ok(tags)
}

fn first_seats(alloc: Global, callers: u8, turns: u32) -> Result<Vec<CoreCaller>, NoMemory>
    ensures many { IfOk result (λ seats. length seats.items ≡ callers) }
    ensures begin { IfOk result (λ seats. All (Begins turns 0) seats.items) }
{
    let mut seats = Vec::new(alloc);
    for _caller in 0..callers {
        seats.push(CoreCaller::at(0, turns))?;
    }
    Ok(seats)
}

/// The claim protocol of all callers of a run, stepped one caller at a time.
#[derive(Drop)]
pub struct Core<'d, D: Decider> {
    decider: &'d D,
    lists: Lists,
    world: World,
    tags: Vec<u64>,
    journal: Journal,
    holder: Option<u8>,
    seats: Vec<CoreCaller>,
    marks: Marks,
    /// What was found for the last decision. Its place serves for the next one.
    found: Option<Found>,
}

impl<'d, D: Decider> Model for Core<'d, D> {
    ghost use Rattle.claim_core.specs.Cores.{Running};

    ghost Value = { Running D };

    ghost use Rattle.claim_core.specs.Cores.{state_of, IsCore};

    ghost view = { λ c. record {
      decider = c.decider.now;
      first = c.journal.first;
      lists = c.lists;
      state = state_of c.tags.items c.world c.journal c.holder c.seats.items c.marks;
    } };

    ghost invariant = { λ c. IsCore
        (D.verdict c.decider.now) c.lists c.tags.items c.world c.journal c.holder c.seats.items c.marks };
}

impl<'d, D: Decider> Core<'d, D> {
    /// The core before the first step, over lists of ids of amoebots of the world.
    /// It takes all memory.
    pub fn make(
        alloc: Global,
        decider: &'d D,
        world: World,
        lists: &Lists,
    ) -> Result<Core<'d, D>, NoMemory>
        requires { All (All (λ id. IsSome (bot_at world id))) lists.now.ids }
        ensures opened { IfOk result (λ core. core ≡ opening_core D.verdict decider.now world lists.now) }
        ensures callers { IfOk result (λ core. length core.state.callers ≡ length lists.now.ids) }
    {
        world.keeps();
        touches_zone(decider);
        has_next(decider);
        let records = first_records(alloc, &world, lists)?;
        let places = first_places(alloc, cells_of(&world), lists);
        let (records, places) = beside(records, places)?;
        let ((records, places), lists) = beside((records, places), lists.copy(alloc))?;
        let (journal, marks) = records;
        let (tags, seats) = places;
        Ok(Core {
            decider,
            lists,
            world,
            tags,
            journal,
            holder: None,
            seats,
            marks,
            found: None,
        })
    }

    /// What a core keeps: what it is about may be run; some steps led from the opening
    /// to its state, so that it is sound; and each list has its caller.
    pub fn keeps(&self)
        ensures setup { IsSetup (setup_of D.verdict self.now) }
        ensures reached { IsReachedState (setup_of D.verdict self.now) self.now.state }
        ensures sound { Sound (setup_of D.verdict self.now) self.now.state }
        ensures callers { length self.now.state.callers ≡ length self.now.lists.ids }
    {
        let _lists = &self.lists;
    }

    /// The turn at which a caller is.
    pub fn turn(&self, caller: u8) -> u32
        requires { caller < length self.now.state.callers }
        ensures { HasTurn self.now.state.callers caller result }
    {
        let seat = self.seat(caller);
        seat.turn
    }

    /// What a caller does next.
    pub fn phase(&self, caller: u8) -> &Phase
        requires { caller < length self.now.state.callers }
        ensures { HasPhase self.now.state.callers caller result.now }
    {
        let seat = self.seat(caller);
        &seat.phase
    }

    /// The cells that a caller holds, in the order in which they were won,
    /// each with its value as it was recorded.
    pub fn held(&self, caller: u8) -> &[(CellName, Cell)]
        requires { caller < length self.now.state.callers }
        ensures { HoldsCells self.now.state.callers caller result.now }
    {
        let seat = self.seat(caller);
        seat.held.as_slice()
    }

    /// The caller that holds the journal, if one does.
    pub fn holder(&self) -> Option<u8>
        ensures { result ≡ self.now.state.holder }
    {
        self.holder
    }

    /// The tags of all cells, by the cells' numbers: the nodes of the area by theirs,
    /// then the bodies by their ids.
    pub fn tags(&self) -> &[u64]
        ensures { result.now ≡ self.now.state.tags }
    {
        self.tags.as_slice()
    }

    fn seat(&self, caller: u8) -> &CoreCaller
        requires { caller < length self.now.state.callers }
        ensures { IsCoreCaller self.now.state.callers caller result.now }
    {
        &self.seats[usize::from(caller)]
    }

    /// The one step of a caller.
    pub fn step(&mut self, caller: u8)
        requires { caller < length self.old.state.callers }
        ensures step { self.new ≡ stepped D.verdict caller self.old }
        ensures callers { length self.new.state.callers ≡ length self.old.state.callers }
    {
        let _lists = &self.lists;
        self.act(caller);
    }

    /// The step of a caller in its phase.
    fn act(&mut self, caller: u8)
        requires { caller < length self.old.state.callers }
        ensures { self.new ≡ stepped D.verdict caller self.old }
    {
        let place = self.journal.entries().len() as u32;
        match &self.seats[usize::from(caller)].phase {
            Phase::Claim => self.claim(caller),
            Phase::Refusing(name, tag) => {
                let mark = busy(*name, *tag, place);
                self.settle(caller, mark);
            }
            Phase::Looking(look) => {
                let mark = mark_of(*look, place);
                self.settle(caller, mark);
            }
            Phase::Taking(_) => self.take(caller),
            Phase::Committing(_) => self.commit(caller),
            Phase::Releasing => self.release(caller),
            Phase::Ended => {}
        }
    }

    /// Claim: a try for the next cell of the zone.
    fn claim(&mut self, caller: u8)
        requires { HasPhase self.old.state.callers caller phase.Claim }
        ensures { self.new ≡ stepped D.verdict caller self.old }
    {
        let seat = &mut self.seats[usize::from(caller)];
        let bot = self.lists.bot(caller, seat.turn);
        let area = self.world.area();
        let next = next_known(&mut seat.zone, bot, seat.held.as_slice());
        let name = match next {
            Some(name) => name,
            None => unreachable!(),
        };
        let number = match cell_number(&area, name) {
            Some(number) => number,
            None => unreachable!(),
        };
        let found = self.tags[number];
        if found != 0 {
            seat.phase = Phase::Refusing(name, found);
            return;
        }
        self.tags[number] = tag(caller, seat.turn, bot);
        let value = value_of(&self.world, name);
        seat.zone.push(&area, &value);
        seat.held.push((name, value));
        seat.go_on(self.decider, &mut self.found, &self.world, bot);
    }

    /// Refusing, Looking and the end of Committing: the turn gets its mark.
    fn settle(&mut self, caller: u8, mark: Mark)
        requires unmarked { IsUnmarked self.old.lists.turns self.old.state.callers caller }
        requires next { next (setup_of D.verdict self.old) caller self.old.state
            ≡ looks_at (setup_of D.verdict self.old) caller self.old.state
            (slice_get self.old.state.callers caller) mark }
        ensures { self.new ≡ stepped D.verdict caller self.old }
    {
        let turns = self.lists.turns();
        self.marks.add(caller, mark);
        let seat = &mut self.seats[usize::from(caller)];
        seat.free(turns);
    }

    /// Taking: the journal, if nobody holds it.
    fn take(&mut self, caller: u8)
        requires { (change : Change) × HasPhase self.old.state.callers caller (phase.Taking change) }
        ensures { self.new ≡ stepped D.verdict caller self.old }
    {
        if self.holder.is_none() {
            self.holder = Some(caller);
            let seat = &mut self.seats[usize::from(caller)];
            match replace(&mut seat.phase, Phase::Releasing) {
                Phase::Taking(change) => seat.phase = Phase::Committing(change),
                _ => unreachable!(),
            }
        }
    }

    /// Committing: the entry joins the journal, the patch the world, and the journal is free.
    fn commit(&mut self, caller: u8)
        requires { (change : Change) × HasPhase self.old.state.callers caller (phase.Committing change) }
        ensures { self.new ≡ stepped D.verdict caller self.old }
    {
        let turns = self.lists.turns();
        let place = self.journal.entries().len() as u32;
        let seat = &mut self.seats[usize::from(caller)];
        let bot = self.lists.bot(caller, seat.turn);
        match replace(&mut seat.phase, Phase::Releasing) {
            Phase::Committing(change) => {
                self.world.apply(&change.patch);
                record_again(&self.world, seat.held.as_mut_slice());
                self.journal.push(Entry {
                    caller,
                    turn: seat.turn,
                    bot,
                    action: change.action,
                    moved: change.moved,
                    patch: change.patch,
                });
                self.holder = None;
                self.marks.add(caller, Mark::Done { place });
                seat.free(turns);
            }
            _ => unreachable!(),
        }
    }

    /// Releasing: the cell that was won last is freed.
    fn release(&mut self, caller: u8)
        requires { HasPhase self.old.state.callers caller phase.Releasing }
        ensures { self.new ≡ stepped D.verdict caller self.old }
    {
        let turns = self.lists.turns();
        let area = self.world.area();
        let seat = &mut self.seats[usize::from(caller)];
        let name = match seat.held.pop() {
            Some((name, _value)) => name,
            None => unreachable!(),
        };
        match cell_number(&area, name) {
            Some(number) => self.tags[number] = 0,
            None => unreachable!(),
        }
        seat.free(turns);
    }

    /// Whether every caller has ended.
    pub fn ended(&self) -> bool
        ensures { IsTrue result ↔ HaveEnded self.now.state }
    {
        have_ended(self.seats.as_slice())
    }

    /// Rounds of one step for each caller, in rising number, until all have ended:
    /// at most 40 for each turn of all callers together.
    pub fn finish(&mut self)
        ensures finished { IsFinished D.verdict self.old self.new }
        ensures callers { length self.new.state.callers ≡ length self.old.state.callers }
    {
        let _lists = &self.lists;
        while !self.ended() {
            self.round();
        }
    }

    /// One step of each caller, in rising number.
    fn round(&mut self)
        ensures { self.new
            ≡ record self.old { state = step_round (setup_of D.verdict self.old) self.old.state } }
    {
        let callers = self.lists.callers();
        for caller in 0..callers {
            self.step(caller);
        }
    }

    /// What the run leaves, once every caller has ended.
    pub fn report(self) -> Report
        requires { HaveEnded self.state }
        ensures left { IsReportOf (setup_of D.verdict self.entry) self.entry.state result }
        ensures reached { Reached (setup_of D.verdict self.entry) result }
        ensures good { Good (D.verdict self.entry.decider) self.entry.first self.entry.lists result }
    {
        let Core {
            world,
            journal,
            marks,
            ..
        } = self;
        Report {
            world,
            journal,
            turns: marks,
        }
    }
}

/// Whether each of the callers has ended.
fn have_ended(seats: &[CoreCaller]) -> bool
    ensures { IsTrue result ↔ All (λ seat. seat.phase ≡ phase.Ended) seats.now }
{
    for seat in seats {
        match seat.phase {
            Phase::Ended => {}
            _ => return false,
        }
    }
    true
}

/// What a cell holds; a body is that of an amoebot that is there.
fn value_of(world: &World, name: CellName) -> Cell
    requires { IsCell (length world.now.bots) name }
    ensures { result ≡ held_by world.now name }
{
    match name {
        CellName::Spot(node) => Cell::Spot(world.occupant(node)),
        CellName::Body(id) => Cell::Body(*world.bot(id)),
    }
}

/// Records what the cells hold again.
fn record_again(world: &World, held: &mut [(CellName, Cell)])
    requires { All (λ p. IsCell (length world.now.bots) p.0) held.old }
    ensures { held.new ≡ map (λ p. (p.0, held_by world.now p.0)) held.old }
{
    for pair in held.iter_mut() {
        pair.1 = value_of(world, pair.0);
    }
}

/// The mark of a turn that found a tag at a cell.
fn busy(cell: CellName, tag: u64, place: u32) -> Mark
    requires known { tag_caller tag < 256 }
    requires found { 0 < tag }
    ensures { result ≡ busy_mark cell tag place }
{
    Mark::Busy {
        cell,
        by_caller: tag_caller(tag),
        by_turn: tag_turn(tag),
        by_bot: tag_bot(tag),
        place,
    }
}

/// The mark of a turn that changes nothing.
fn mark_of(look: Look, place: u32) -> Mark
    ensures { result ≡ mark_of_look look place }
{
    match look {
        Look::Idle => Mark::Idle { place },
        Look::Failed(failure) => Mark::Failed { failure, place },
    }
}

/// The next cell of an amoebot's zone, of which a caller holds these cells.
/// What is known of the zone begins anew with its first cell.
fn next_known(zone: &mut KnownZone, bot: u16, held: &[(CellName, Cell)]) -> Option<CellName>
    ensures { (a : Extent) → (0 < length held.now → zone.old ≡ reading a bot held.now)
        → (zone.new ≡ reading a bot held.now) × (result ≡ next_cell a bot held.now) }
{
    if held.is_empty() {
        zone.begin(bot);
        return Some(CellName::Body(bot));
    }
    zone.next(held.len())
}

/// Keeps what was found in the cells of a whole zone, of which all is known.
fn seal(
    found: &mut Option<Found>,
    world: &World,
    bot: u16,
    zone: &KnownZone,
    cells: &[(CellName, Cell)],
)
    requires known { zone.now ≡ reading world.now.area bot cells.now }
    requires shown { IsShown (shown_with world.now bot cells.now) }
    ensures { found.new ≡ Some (shown_with world.now bot cells.now) }
{
    match found {
        Some(found) => world.renew_found(found, bot, zone, cells),
        None => *found = Some(world.found_with(bot, cells)),
    }
}

/// The phase of a caller that decides on what was found.
fn decided<D: Decider>(decider: &D, found: &Option<Found>) -> Phase
    requires { IsSome found.now }
    ensures { (s : Shown) → found.now ≡ Some s → result ≡ phase_of_verdict (D.verdict decider.now s) }
{
    match found {
        Some(found) => phase_of(decider.decide(found)),
        None => unreachable!(),
    }
}

/// The phase of a caller with its decision.
fn phase_of(verdict: Verdict) -> Phase
    ensures { result ≡ phase_of_verdict verdict }
{
    match verdict {
        Verdict::Idle => Phase::Looking(Look::Idle),
        Verdict::Failed(failure) => Phase::Looking(Look::Failed(failure)),
        Verdict::Change(change) => Phase::Taking(change),
    }
}
