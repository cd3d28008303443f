// The static library for C (include/ospirnar.h): each entry of the crate `capi`, exported. Each only calls the entry of its name, and states its clauses again.

#![tactic(auto)]

pub mod entries;
pub mod fields;
pub mod turnings;
