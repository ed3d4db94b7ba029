//! Tests of commands: their words, where bytes come from and go to, samples, and through the top
//! call those on journals: old values, what is renewed, gone back along and counted, and elections.
#![tactic(auto)]

#[cfg(test)]
mod elections;
#[cfg(test)]
mod old_values;
#[cfg(test)]
mod renewals;
#[cfg(test)]
mod rewind_faults;
#[cfg(test)]
mod rewinds;
#[cfg(test)]
mod rounds;
#[cfg(test)]
mod samples;
#[cfg(test)]
mod slow_rounds;
#[cfg(test)]
mod small_runs;
#[cfg(test)]
mod sources;
#[cfg(test)]
mod tampered;
#[cfg(test)]
mod words;
