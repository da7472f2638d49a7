// Ballots: contests, sets of candidates, rankings, groups, and the sources that hand groups out.
#![tactic(auto)]

pub mod candidate_set;
pub mod contest;
pub mod group;
pub mod lent;
pub mod ranking;
pub mod refusal;
pub mod source;
#[cfg(test)]
mod tests;
pub mod walk;
