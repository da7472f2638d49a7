// Texts of ballots as ballot sources: rows text and groups text.
#![tactic(auto)]

mod fault;
mod form;
mod lines;
#[cfg(test)]
mod tests;
mod text;

pub use fault::Fault;
pub use form::{Groups, LineForm, Rows};
pub use lines::fields::LineFields;
pub use lines::{BallotLines, GroupsText, RowsText};
pub use text::BallotText;
