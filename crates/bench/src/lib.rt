// The bench: a source opened under an expression, read row by row, edited by drafts, with a
// history of commits.
#![tactic(auto)]

pub mod bench;
pub mod draft;
pub mod draft_readings;
pub mod drafting;
mod entries;
pub mod history;
mod labels;
pub mod marking;
pub mod readings;
pub mod tables;
