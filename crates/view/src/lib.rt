// Views: what an expression shows of a labelled source.
#![tactic(auto)]

pub mod cases;
mod class_table;
pub mod fault;
pub mod readings;
pub mod view;
