// The dossier of an audit: the assertions entered for a contest and a winner, whether they leave no other winner, and
// their margins on the ballots.
#![tactic(auto)]

pub mod dossier;
mod event;
mod live;
pub mod open_error;
#[cfg(test)]
mod tests;
