// Assertions: what each kind is worth on a ballot, and tallying one over the ballots of any source.
#![tactic(auto)]

pub mod assertion;
pub mod assorter;
pub mod cause;
mod fitting;
pub mod majority;
pub mod neb;
pub mod nen;
mod reading;
pub mod tallied;
pub mod tallying;
#[cfg(test)]
mod tests;
