// The search for the first order that a rule does not contradict.
#![tactic(auto)]

pub mod answer;
pub mod ending;
pub mod rule;
pub mod searching;
pub mod step;
#[cfg(test)]
mod tests;
