//! Tests of the model: the lattice, worlds and what is shown of them, operations, entries, measures
//! of shapes, the way back, rounds and elections.
#![tactic(auto)]

#[cfg(test)]
mod arcs;
#[cfg(test)]
mod choices;
#[cfg(test)]
mod crowds;
#[cfg(test)]
mod decision_counts;
#[cfg(test)]
mod drawings;
#[cfg(test)]
mod election_runs;
#[cfg(test)]
mod elections;
#[cfg(test)]
mod erosion;
#[cfg(test)]
mod followed_entries;
#[cfg(test)]
mod lattice;
#[cfg(test)]
mod measures;
#[cfg(test)]
mod operations;
#[cfg(test)]
mod round_programs;
#[cfg(test)]
mod round_runs;
#[cfg(test)]
mod rounds;
#[cfg(test)]
mod serial;
#[cfg(test)]
mod slow_rounds;
#[cfg(test)]
mod slow_shapes;
#[cfg(test)]
mod tampered_values;
#[cfg(test)]
mod ways_back;
#[cfg(test)]
mod worlds;
