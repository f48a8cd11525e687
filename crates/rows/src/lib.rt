// The view of a course: its rows.
#![tactic(auto)]

mod blanks;
mod fitting;
pub mod row;
pub mod rows;
mod shown;
