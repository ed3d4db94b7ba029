//! Tests of claims: the protocol as a machine, and claims of whole zones on fields, on one thread.
//! Other crates of tests have from here the simple checker of reports, fields, and gates.
#![tactic(auto)]

mod checker;
mod fields;
mod late_gate;
mod yield_gate;

pub use checker::is_report;
pub use fields::{decided, field_of, seat_of};
pub use late_gate::{LateGate, is_late};
pub use yield_gate::YieldGate;

#[cfg(test)]
mod claim_rows;
#[cfg(test)]
mod core_fixtures;
#[cfg(test)]
mod core_rows;
#[cfg(test)]
mod field_fixtures;
#[cfg(test)]
mod overtaken;
#[cfg(test)]
mod parts;
#[cfg(test)]
mod schedules;
#[cfg(test)]
mod seats;
#[cfg(test)]
mod tables;
#[cfg(test)]
mod tampered;
#[cfg(test)]
mod walks;
#[cfg(test)]
mod zones;
