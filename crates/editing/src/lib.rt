// Editing through a view: what can be asked of a bench, what it answers, and the rules by which it
// does. The laws of these rules are proved here, for every kind of label and every run of calls.
#![tactic(auto)]

pub mod refusal;
pub mod request;
pub mod run_laws;
