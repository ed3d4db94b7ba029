//! The workers, one for each caller, each in a thread of its own where one can be made.
ghost use Rattle.std.specs.Prelude.{◌≡◌, ◌<◌, ◌≤◌, ◌+◌, length};
ghost use Rattle.claim_core.specs.Limits.{most_callers};
ghost use Rattle.caller_workers.specs.WorkerStates.{HasMade, HaveMade, MakesTurns};

use crate::start::Start;
use crate::turn_maker::TurnMaker;
use amoebot_state::Decider;
use claim_core::Lists;
use std::mem::swap;
use std::sync::Wait;
use std::thread;
use std::thread::Threads;

/// What a worker has before it: the seat of its caller,
/// and the answers of the caller's turns so far.
#[derive(Drop)]
pub struct WorkerState<S, A> {
    pub seat: Option<S>,
    pub turns: Vec<A>,
}

/// The most callers, and so the most workers beside one another.
const WORKERS: usize = 16;

/// Makes the turns of all callers. Their workers' states are in the order of the callers' numbers.
/// The list is halved, and one half goes to another thread, down to single states.
pub fn make_all<
    R: Threads + Wait + Sync,
    D: Decider,
    W,
    T: TurnMaker<D, W>,
    F: Fn(u32, u16, T::Seat) -> (T::Seat, T::Answer) + Sync,
>(rt: &R, turning: &T, make: &F, lists: &Lists, states: &mut [WorkerState<T::Seat, T::Answer>])
    requires makes { MakesTurns D.verdict T.token T.told
        (T.field turning.now) (F.pre make.now) (F.post make.now) }
    requires few { length states.old ≡ length lists.now.ids }
    requires lists { (T.field turning.now).terms.lists ≡ lists.now }
    requires before { HaveMade D.verdict T.token T.told (T.field turning.now) 0 states.old }
    ensures count { length states.new ≡ length states.old }
    ensures after { HaveMade D.verdict T.token T.told (T.field turning.now) lists.now.turns states.new }
{
    let start = Start::of(lists.callers());
    let worker = |caller: usize, state: &mut WorkerState<T::Seat, T::Answer>|
        requires { (caller < length lists.now.ids) × (length lists.now.ids ≤ most_callers)
            × ((T.field turning.now).terms.lists ≡ lists.now)
            × MakesTurns D.verdict T.token T.told (T.field turning.now) (F.pre make.now) (F.post make.now)
            × HasMade D.verdict T.token T.told (T.field turning.now) caller 0 state.now }
        ensures { HasMade D.verdict T.token T.told
            (T.field turning.entry.now) caller lists.entry.now.turns state.exit.now }
    { make_turns(rt, turning, make, lists, caller as u8, &start, state) };
    thread::for_each_mut(rt, states, WORKERS, &worker);
}

/// One worker: begins with the others, makes all turns of a caller in their order,
/// and keeps the answer of each.
/// Between two turns it keeps step with the others: what its amoebots wait for may be their turn.
/// Meanwhile its state is its own, apart from those of the others: they lie side by side in memory,
/// and what one worker writes there slows the others down.
fn make_turns<
    R: Wait,
    D: Decider,
    W,
    T: TurnMaker<D, W>,
    F: Fn(u32, u16, T::Seat) -> (T::Seat, T::Answer),
>(
    rt: &R,
    turning: &T,
    make: &F,
    lists: &Lists,
    caller: u8,
    start: &Start,
    state: &mut WorkerState<T::Seat, T::Answer>,
)
    requires makes { MakesTurns D.verdict T.token T.told
        (T.field turning.now) (F.pre make.now) (F.post make.now) }
    requires listed { caller < length lists.now.ids }
    requires lists { (T.field turning.now).terms.lists ≡ lists.now }
    requires before { HasMade D.verdict T.token T.told (T.field turning.now) caller 0 state.old }
    ensures { HasMade D.verdict T.token T.told (T.field turning.now) caller lists.now.turns state.new }
{
    let mut own = WorkerState {
        seat: None,
        turns: Vec::new(*state.turns.allocator()),
    };
    swap(state, &mut own);
    start.begin();
    let mut lack = 0;
    for turn in 0..lists.turns() {
        if lists.callers() > 1 {
            start.await_order(caller, turn);
        }
        make_turn(rt, turning, make, lists, caller, turn, &mut own);
        if lists.callers() > 1 {
            lack = start.pace(turn, lists.turns(), lack);
        }
    }
    *state = own;
}

/// Makes one turn of a caller.
fn make_turn<
    R: Wait,
    D: Decider,
    W,
    T: TurnMaker<D, W>,
    F: Fn(u32, u16, T::Seat) -> (T::Seat, T::Answer),
>(
    _rt: &R,
    turning: &T,
    make: &F,
    lists: &Lists,
    caller: u8,
    turn: u32,
    state: &mut WorkerState<T::Seat, T::Answer>,
)
    requires makes { MakesTurns D.verdict T.token T.told
        (T.field turning.now) (F.pre make.now) (F.post make.now) }
    requires listed { caller < length lists.now.ids }
    requires turn { turn < lists.now.turns }
    requires lists { (T.field turning.now).terms.lists ≡ lists.now }
    requires before { HasMade D.verdict T.token T.told (T.field turning.now) caller turn state.old }
    ensures { HasMade D.verdict T.token T.told (T.field turning.now) caller (turn + 1) state.new }
{
    let Some(seat) = state.seat.take() else {
        unreachable!()
    };
    let bot = lists.bot(caller, turn);
    let (seat, answer) = make(turn, bot, seat);
    state.seat = Some(seat);
    state.turns.push_reserved(answer);
}
