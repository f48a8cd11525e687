// The forward run of an admitted expression over a source, and the course that it leaves.
#![tactic(auto)]

mod build;
pub mod classes;
mod compare;
pub mod course;
mod enter;
pub mod environment;
mod evaluate;
mod extent;
mod hub_table;
mod hubs;
mod in_map;
mod link;
mod opening;
mod outs;
mod printed;
pub mod readings;
mod recursion;
mod rule;
pub mod run;
pub mod source;
pub mod sources;
pub mod workspace;
