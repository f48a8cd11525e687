// Label kinds: what the label of an arrow can be, and how labels are told apart.
#![tactic(auto)]

pub mod alphabet;
pub mod classes;
pub mod digits;
pub mod field;
pub mod filed;
pub mod label;
pub mod refusal;
pub mod setting;
pub mod text;
