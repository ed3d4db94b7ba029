//! Tests of programs: their texts read, checked, printed and run, and the shipped ones.
#![tactic(auto)]

#[cfg(test)]
mod check_examples;
#[cfg(test)]
mod check_faults;
#[cfg(test)]
mod checked;
#[cfg(test)]
mod expressions;
#[cfg(test)]
mod faults;
#[cfg(test)]
mod first_faults;
#[cfg(test)]
mod fixtures;
#[cfg(test)]
mod limits;
#[cfg(test)]
mod longer_programs;
#[cfg(test)]
mod parsed;
#[cfg(test)]
mod printed;
#[cfg(test)]
mod programs;
#[cfg(test)]
mod shipped;
#[cfg(test)]
mod trees;
#[cfg(test)]
mod walk;
