// Elimination: one count of the ballots of any source, and the recount.
#![tactic(auto)]

mod ballots_rule;
pub mod count;
pub mod count_step;
pub mod counting;
pub mod recount;
mod tallies;
mod tallying;
#[cfg(test)]
mod tests;
