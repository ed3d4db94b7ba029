//! Tests of `run` and `run_text`: whole documents with what is written of them, and what workers
//! on threads leave, by `run` and by `tickets`.
#![tactic(auto)]

#[cfg(test)]
mod calls;
#[cfg(test)]
mod drawn_documents;
#[cfg(test)]
mod failures;
#[cfg(test)]
mod faults;
#[cfg(test)]
mod fronts;
#[cfg(test)]
mod held_callers;
#[cfg(test)]
mod meetings;
#[cfg(test)]
mod reports;
#[cfg(test)]
mod rows;
#[cfg(test)]
mod run_gates;
#[cfg(test)]
mod runs;
#[cfg(test)]
mod tickets;
#[cfg(test)]
mod walls;
