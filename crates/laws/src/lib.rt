// The laws of the forward run of an expression over a source.
#![tactic(auto)]

pub mod laws;
