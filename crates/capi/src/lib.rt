// The entries for C: numbers and slices in, a number out. include/ospirnar.h says what each takes and answers.

#![tactic(auto)]

pub mod entries;
pub mod fields;
mod numbers_out;
pub mod turnings;
mod written;
