// Contests and their ballots from a fixed seed.
ghost use Rattle.std.specs.Prelude.{◌≤◌};

use crate::brute::MOST_CANDIDATES;
use anyhow::{Context, Result};
use ballot::contest::Contest;
use ballot::group::Group;
use ballot::ranking::Ranking;
use fixed_list::FixedList;
use std::alloc::Global;

// A linear congruential generator, of which the high bits are used.
#[derive(Drop)]
pub struct Random {
    state: u64,
}

impl Random {
    pub fn new(seed: u64) -> Random {
        Random { state: seed }
    }

    // A number from `least` to `most`.
    fn between(&mut self, least: u32, most: u32) -> u32
        requires { least ≤ most }
        ensures least { least ≤ result }
        ensures most { result ≤ most }
    {
        self.state = self
            .state
            .wrapping_mul(6364136223846793005)
            .wrapping_add(1442695040888963407);
        let choices = u64::from(most - least) + 1;
        // By `as`, since a remainder is below the number of choices.
        least + ((self.state >> 33) % choices) as u32
    }

    // A contest of 2 to 5 candidates.
    pub fn contest(&mut self) -> Contest {
        Contest::new(self.between(2, 5)).unwrap()
    }

    // A ranking of some of the contest's candidates, perhaps of none.
    fn ranking(&mut self, contest: Contest) -> Result<Ranking> {
        let mut ranked: FixedList<u32, MOST_CANDIDATES> = FixedList::new();
        for _ in 0..self.between(0, contest.candidates()) {
            let candidate = self.between(1, contest.candidates());
            if !ranked.as_slice().contains(&candidate) {
                ranked
                    .push(candidate)
                    .ok()
                    .context("a ranking has more than five candidates")?;
            }
        }
        Ranking::new(contest, ranked.as_slice())
            .ok()
            .context("a ranking was refused")
    }

    fn group(&mut self, contest: Contest) -> Result<Group> {
        let ranking = self.ranking(contest)?;
        Ok(Group::new(ranking, self.between(1, 4)).unwrap())
    }

    // At most 6 groups of ballots.
    pub fn groups(&mut self, heap: Global, contest: Contest) -> Result<Vec<Group>> {
        let mut groups = Vec::new(heap);
        for _ in 0..self.between(0, 6) {
            groups.push(self.group(contest)?)?;
        }
        Ok(groups)
    }
}
