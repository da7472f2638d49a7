// The page of a plan: how its bytes are written into anything that takes bytes, and the figures that it shows.
#![tactic(auto)]

pub mod assertion_line;
pub mod figures;
pub mod page_buffer;
pub mod page_length;
pub mod sink;
#[cfg(test)]
mod tests;
pub mod writing;
