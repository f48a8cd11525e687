// Expressions of the UnCAL graph algebra, and their admission.
#![tactic(auto)]

pub mod admit;
pub mod cases;
mod conditions;
pub mod expression;
pub mod form;
mod levels;
mod markers;
pub mod parts;
pub mod raw;
pub mod reading;
pub mod refusal;
mod sets;
mod table;
pub mod term;
mod uses;
