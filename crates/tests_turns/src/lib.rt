//! Tests of turns: whole activations on one thread, and workers on threads.
#![tactic(auto)]

#[cfg(test)]
mod closed_fields;
#[cfg(test)]
mod fixtures;
#[cfg(test)]
mod gate_calls;
#[cfg(test)]
mod gates;
#[cfg(test)]
mod held_callers;
#[cfg(test)]
mod journals;
#[cfg(test)]
mod long_lists;
#[cfg(test)]
mod machine;
#[cfg(test)]
mod meetings;
#[cfg(test)]
mod reports;
#[cfg(test)]
mod runs;
#[cfg(test)]
mod tickets;
#[cfg(test)]
mod turns;
