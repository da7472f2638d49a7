// Lists in fixed memory.
#![tactic(auto)]

mod list;
#[cfg(test)]
mod tests;

pub use list::FixedList;
pub use list::methods::ListFull;
