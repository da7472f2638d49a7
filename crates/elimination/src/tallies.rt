// How many ballots each candidate has.
ghost use Rattle.std.specs.Prelude.{◌≡◌, ◌+◌, ◌-◌, ◌<◌, ◌≤◌, ◌^◌, true, slice_index, slice_set, MatchOption};
ghost use Rattle.irv.specs.Sets.{has};
ghost use Rattle.irv.specs.Tables.{shown, LeastIn};
ghost use Rattle.elimination.specs.Counts.{Somebody};

use ballot::candidate_set::CandidateSet;

// One place for each candidate that a contest may have, candidate 1 at the first; a fixed array, so that a tally takes no
// memory. A place is found by `as`, since nothing else makes a usize of a u32 without failing.
#[derive(Clone, Copy, Default)]
pub(crate) struct Tallies {
    counts: [u32; 16],
}

impl Tallies {
    // How many ballots `candidate` has; a number outside 1 to 16 has 0.
    pub(crate) fn of(&self, candidate: u32) -> u32
        ensures { result ≡ shown self.now.counts candidate }
    {
        match candidate {
            1..=16 => self.counts[candidate as usize - 1],
            _ => 0,
        }
    }

    // Adds `ballots` to those of `candidate`.
    pub(crate) fn add(&mut self, candidate: u32, ballots: u32)
        requires candidate { (1 ≤ candidate) × (candidate ≤ 16) }
        requires sum { slice_index self.old.counts (candidate - 1) + ballots < 2 ^ 32 }
        ensures { self.new.counts ≡ slice_set self.old.counts (candidate - 1) (slice_index self.old.counts (candidate - 1) + ballots) }
    {
        self.counts[candidate as usize - 1] += ballots;
    }

    // Who of `standing` has the fewest ballots, of equals the lowest number, if anybody stands.
    pub(crate) fn least(&self, standing: &CandidateSet) -> Option<u32>
        ensures { MatchOption result (Somebody standing.now → ⊥) (λ c. (has standing.now c ≡ true) × LeastIn standing.now (shown self.now.counts) c) }
    {
        // Half open, since the library has no law of a chain over `1..=16`.
        (1..17)
            .filter(|candidate| standing.has(*candidate))
            .min_by_key(|candidate| self.of(*candidate))
    }
}
