// Lists of label texts, sorted out: which lines are labels, and which labels are the same.
#![tactic(auto)]

pub mod answer;
pub mod lines;
pub mod totals;
