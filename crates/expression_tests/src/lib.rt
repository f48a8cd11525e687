// Tests of admission at each of its bounds.
#![tactic(auto)]

#[cfg(test)]
mod places;
#[cfg(test)]
mod tests;
