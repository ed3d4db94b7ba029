ghost use Rattle.std.specs.Prelude.{◌≡◌, ◌<◌, length, IfOk, IsSome};
ghost use Rattle.std.specs.List.{All};
ghost use Rattle.amoebot_state.specs.Configs.{bot_at};
ghost use Rattle.amoebot_state.specs.Refusals.{IsBotInRange};

use crate::checker::is_report;
use crate::core_fixtures::{core_of, the_area};
use amoebot_state::{Bot, Cell, CellName, Decider, Entry, Moved, World};
use claim_core::{Core, Lists, Look, Mark, Marks, Phase, Report};
use small_worlds::{lists_of, node, spread, world_of};
use std::alloc::Global;
use std::process::Abort;
use std::test::Fail;
use tri_lattice::Area;

/// What a caller does next.
#[derive(Clone, Copy, PartialEq, Eq)]
pub enum Doing {
    Claims,
    /// It was refused this cell, which had this tag.
    Refused(CellName, u64),
    Looks(Look),
    Takes,
    Commits,
    Releases,
    Ended,
}

/// Steps of one caller, one after another: the caller;
/// the turn and the amoebot at which it is after each of them; what it does next;
/// which list of cells it then holds a front of, with the values that it recorded;
/// how many of them after the first step, and after the last one,
/// where the number rises or falls by one at each step.
#[derive(Clone, Copy)]
pub struct Steps(
    pub u8,
    pub u32,
    pub u16,
    pub Doing,
    pub usize,
    pub u8,
    pub u8,
);

/// An amoebot by its head, its tail and its value of variable 0.
pub type Place = ((u8, u8), (u8, u8), u8);

fn bot_of(place: &Place) -> Bot
    ensures { IsBotInRange result }
{
    spread(place.0, place.1, place.2)
}

fn bots_of(alloc: Global, places: &[Place]) -> Result<Vec<Bot>, Fail>
    ensures { IfOk result (λ bots. All IsBotInRange bots.items) }
{
    let mut bots = Vec::new(alloc);
    for place in places {
        bots.push(bot_of(place))?;
    }
    Ok(bots)
}

/// A cell with its value: a node by its coordinates, or an amoebot by its id.
#[derive(Clone, Copy)]
pub enum Seen {
    Spot(u8, u8, Option<u16>),
    Body(u16, Place),
}

impl Seen {
    fn pair(&self) -> (CellName, Cell) {
        match self {
            Seen::Spot(x, y, occupant) => (CellName::Spot(node(*x, *y)), Cell::Spot(*occupant)),
            Seen::Body(id, place) => (CellName::Body(*id), Cell::Body(bot_of(place))),
        }
    }
}

/// How a caller stands.
#[derive(Clone, Copy)]
struct Stand<'a> {
    turn: u32,
    bot: u16,
    doing: Doing,
    cells: &'a [Seen],
    held: usize,
}

/// How all callers stand.
#[derive(Drop)]
pub struct Stands<'a> {
    stands: [Stand<'a>; 16],
}

impl<'a> Stands<'a> {
    /// All callers are about to do this in turn 0, and hold nothing.
    pub fn all(doing: Doing) -> Stands<'a> {
        let stand = Stand {
            turn: 0,
            bot: 0,
            doing,
            cells: &[],
            held: 0,
        };
        Stands {
            stands: [stand; 16],
        }
    }

    /// Makes the steps of the table, and compares the core with it after each of them.
    pub fn follow<D: Decider>(
        &mut self,
        rt: &impl Abort,
        core: &mut Core<'_, D>,
        callers: u8,
        zones: &[&'a [Seen]],
        table: &[Steps],
    )
        requires { length core.old.state.callers ≡ callers }
        ensures { length core.new.state.callers ≡ callers }
    {
        for steps in table {
            let Steps(caller, turn, bot, doing, zone, from, to) = *steps;
            assert!(rt; caller < callers && caller < 16 && zone < zones.len());
            for step in 0..=from.abs_diff(to) {
                core.step(caller);
                self.stands[usize::from(caller)] = Stand {
                    turn,
                    bot,
                    doing,
                    cells: zones[zone],
                    held: usize::from(held_after(from, to, step)),
                };
                assert!(rt;
                    self.are_of(core, callers),
                    "caller {caller} turn {turn} step {step}"
                );
            }
        }
    }

    /// Whether the core of so many callers stands so: turns, phases,
    /// held cells with what was recorded, the journal's holder, and the tag of each cell.
    fn are_of<D: Decider>(&self, core: &Core<'_, D>, callers: u8) -> bool
        requires { length core.now.state.callers ≡ callers }
    {
        for caller in 0..callers {
            if let Some(stand) = self.stands.get(usize::from(caller)) {
                let holds = core.holder() == Some(caller);
                if holds != (stand.doing == Doing::Commits) || !stand.is_of(core, caller) {
                    return false;
                }
            }
        }
        let Some(area) = the_area() else {
            return false;
        };
        for (number, tag) in core.tags().iter().enumerate() {
            if *tag != self.tag_of(cell_at(&area, number)) {
                return false;
            }
        }
        true
    }

    /// The tag of a cell by those who hold cells.
    fn tag_of(&self, cell: CellName) -> u64 {
        for (caller, stand) in self.stands.iter().enumerate() {
            if stand.has(cell) {
                let turns = u64::from(stand.turn) + 65_536 * caller as u64;
                return 1 + u64::from(stand.bot) + 4096 * turns;
            }
        }
        0
    }
}

impl Stand<'_> {
    /// Whether the caller stands so.
    fn is_of<D: Decider>(&self, core: &Core<'_, D>, caller: u8) -> bool
        requires { caller < length core.now.state.callers }
    {
        if core.turn(caller) != self.turn || doing_of(core.phase(caller)) != self.doing {
            return false;
        }
        let held = core.held(caller);
        if held.len() != self.held || self.held > self.cells.len() {
            return false;
        }
        for (pair, cell) in held.iter().zip(self.cells) {
            if *pair != cell.pair() {
                return false;
            }
        }
        true
    }

    /// Whether the cell is held.
    fn has(&self, cell: CellName) -> bool {
        for (place, seen) in self.cells.iter().enumerate() {
            if place < self.held && seen.pair().0 == cell {
                return true;
            }
        }
        false
    }
}

fn held_after(from: u8, to: u8, step: u8) -> u8 {
    if from <= to {
        from.saturating_add(step)
    } else {
        from.saturating_sub(step)
    }
}

fn doing_of(phase: &Phase) -> Doing {
    match phase {
        Phase::Claim => Doing::Claims,
        Phase::Refusing(cell, tag) => Doing::Refused(*cell, *tag),
        Phase::Looking(look) => Doing::Looks(*look),
        Phase::Taking(_) => Doing::Takes,
        Phase::Committing(_) => Doing::Commits,
        Phase::Releasing => Doing::Releases,
        Phase::Ended => Doing::Ended,
    }
}

/// The cell with a number: the nodes of the area in the order of their numbers,
/// then the bodies by their ids.
fn cell_at(area: &Area, number: usize) -> CellName {
    let nodes = area.size() as usize;
    if number < nodes {
        CellName::Spot(area.node(number as u32))
    } else {
        CellName::Body(u16::try_from(number - nodes).unwrap_or(u16::MAX))
    }
}

/// An entry: its caller, turn, amoebot, action and movement, and the new values of its patch.
#[derive(Clone, Copy)]
pub struct Told(
    pub u8,
    pub u32,
    pub u16,
    pub u8,
    pub Moved,
    pub &'static [Seen],
);

/// A run, and what it leaves.
pub struct Case {
    pub bots: &'static [Place],
    pub turns: u32,
    pub ids: &'static [&'static [u16]],
    /// The zones that the steps name.
    pub zones: &'static [&'static [Seen]],
    pub steps: &'static [Steps],
    pub entries: &'static [Told],
    pub marks: &'static [&'static [Mark]],
    pub last: &'static [Place],
}

/// The callers of the case make the steps of its table and then the rounds of `finish`.
/// After each of those steps the core is compared with the table,
/// and at the end the report with the case.
/// A step of a caller that has ended then changes nothing more.
pub fn check_case<D: Decider>(
    rt: &impl Abort,
    alloc: Global,
    decider: &D,
    case: &Case,
) -> Result<(), Fail> {
    let bots = bots_of(alloc, case.bots)?;
    if bots.len() > 4096 {
        Err("few amoebots")?;
    }
    let first = world_of(alloc, bots.as_slice())?;
    let lists = lists_of(alloc, case.turns, &first, case.ids)?;
    let report = report_of(rt, alloc, decider, &first, &lists, case)?;
    assert!(rt; are_entries(report.journal.entries(), case.entries));
    assert!(rt; are_marks(&report.turns, case.marks));
    assert!(rt; are_bots(&report.world, case.last));
    assert!(rt; is_report(alloc, decider, &first, &lists, &report)?);
    Ok(())
}

fn report_of<D: Decider>(
    rt: &impl Abort,
    alloc: Global,
    decider: &D,
    first: &World,
    lists: &Lists,
    case: &Case,
) -> Result<Report, Fail>
    requires { All (All (λ id. IsSome (bot_at first.now id))) lists.now.ids }
{
    let mut core = core_of(alloc, decider, first.copy(alloc)?, lists)?;
    let callers = lists.callers();
    let mut stands = Stands::all(if case.turns == 0 {
        Doing::Ended
    } else {
        Doing::Claims
    });
    assert!(rt; stands.are_of(&core, callers));
    stands.follow(rt, &mut core, callers, case.zones, case.steps);
    core.finish();
    assert!(rt; core.ended());
    Ok(core.report())
}

fn are_entries(entries: &[Entry], told: &[Told]) -> bool {
    if entries.len() != told.len() {
        return false;
    }
    for (entry, told) in entries.iter().zip(told) {
        if !is_entry(entry, told) {
            return false;
        }
    }
    true
}

fn is_entry(entry: &Entry, told: &Told) -> bool {
    let Told(caller, turn, bot, action, moved, seen) = *told;
    let plain = entry.plain();
    plain.caller == caller
        && plain.turn == turn
        && plain.bot == bot
        && plain.action == action
        && plain.moved == moved
        && are_pairs(plain.patch.pairs(), seen)
}

fn are_pairs(pairs: &[(CellName, Cell)], seen: &[Seen]) -> bool {
    if pairs.len() != seen.len() {
        return false;
    }
    for (pair, cell) in pairs.iter().zip(seen) {
        if *pair != cell.pair() {
            return false;
        }
    }
    true
}

fn are_marks(turns: &Marks, marks: &[&[Mark]]) -> bool {
    if usize::from(turns.callers()) != marks.len() {
        return false;
    }
    for (caller, own) in marks.iter().enumerate() {
        if !are_own_marks(turns, caller as u8, own) {
            return false;
        }
    }
    true
}

fn are_own_marks(turns: &Marks, caller: u8, marks: &[Mark]) -> bool {
    if caller >= turns.callers() || turns.count(caller) as usize != marks.len() {
        return false;
    }
    for (turn, mark) in marks.iter().enumerate() {
        if turns.mark(caller, turn as u32) != *mark {
            return false;
        }
    }
    true
}

fn are_bots(world: &World, places: &[Place]) -> bool {
    if usize::from(world.bots()) != places.len() {
        return false;
    }
    for (id, place) in places.iter().enumerate() {
        if *world.bot(id as u16) != bot_of(place) {
            return false;
        }
    }
    true
}
