// Lines of ballots: a line is read off the front of a text, and its group judged by a contest.
#![tactic(auto)]

mod field;
mod form;
mod judge;
mod line;
mod row;
mod token;

pub use field::Field;
pub use form::{TextForm, UnknownForm};
pub use judge::{GroupRead, LineFault, take_group};
pub use line::{LineRead, read_line};
