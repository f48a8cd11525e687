// Walks over steps between numbered nodes: what the steps reach from a root.
#![tactic(auto)]

pub mod step_table;
pub mod steps;
pub mod visits;
pub mod walk;
