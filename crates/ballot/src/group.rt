// A group of ballots with one ranking.
ghost use Rattle.std.specs.Prelude.{◌≤◌};

use crate::ranking::Ranking;

pub mod methods;

#[derive(Clone, Copy)]
pub struct Group {
    ranking: Ranking,
    count: u32,
    ghost some: { 1 ≤ count },
}
