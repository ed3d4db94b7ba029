ghost use Rattle.std.specs.Prelude.{◌≡◌, ◌≤◌, length, map, [], None, IfOk, IsSome, vec_len, vec_capacity};
ghost use Rattle.std.specs.List.{All};
ghost use Rattle.caller_workers.specs.{Turns.{lists_told}, WorkerStates.{AreClear, AreTaken, seat_at, turns_at}};

use crate::seat::TicketSeat;
use crate::seats::TicketSeats;
use crate::ticket_turn::TicketTurn;
use amoebot_state::{Decider, NoMemory};
use caller_workers::WorkerState;
use std::alloc::Global;

/// A worker's state for each caller, with the seats in the order of the callers
/// and room for all turns.
pub(crate) fn seat_all<D: Decider>(
    alloc: Global,
    callers: u8,
    turns: u32,
    seats: &mut TicketSeats<D>,
) -> Result<Vec<WorkerState<TicketSeat<D>, TicketTurn>>, NoMemory>
    requires callers { callers ≡ length seats.old.seats }
    requires all { All (λ seat. IsSome seat) seats.old.seats }
    ensures states { IfOk result (λ states. AreClear (λ seat. seat) turns seats.old.seats states.items) }
    ensures out { IfOk result (λ states.
        seats.new ≡ record seats.old { seats = map (λ _. None) states.items }) }
{
    let mut states = Vec::new(alloc);
    for _caller in 0..callers {
        let seat = seats.take();
        let mut own: Vec<TicketTurn> = Vec::new(alloc);
        own.reserve_exact(turns as usize)?;
        states.push(WorkerState { seat, turns: own })?;
    }
    Ok(states)
}

/// Gives all seats back, and keeps the answers of the turns, for which there is room.
/// It takes no memory.
pub(crate) fn clear<D: Decider>(
    seats: &mut TicketSeats<D>,
    mut states: Vec<WorkerState<TicketSeat<D>, TicketTurn>>,
    mut turns: Vec<Vec<TicketTurn>>,
) -> Vec<Vec<TicketTurn>>
    requires taken { AreTaken (λ seat. seat) seats.old states.items }
    requires none { turns.items ≡ [] }
    requires room { vec_len states ≤ vec_capacity turns }
    ensures seats { seats.new ≡ record seats.old { seats = map (seat_at (λ seat. seat)) states.items } }
    ensures turns { lists_told (λ turn. turn) result.items ≡ map (turns_at (λ turn. turn)) states.items }
{
    while let Some(WorkerState { seat, turns: own }) = states.pop() {
        if let Some(seat) = seat {
            seats.give(seat);
        }
        turns.push_reserved(own);
    }
    turns.reverse();
    turns
}
