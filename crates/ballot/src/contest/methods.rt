// Opening a contest, and who stands in it.
ghost use Rattle.std.specs.Prelude.{◌≡◌, ℕ, MatchResult};
ghost use Rattle.irv.specs.Ballots.{slate, member, Proper};
ghost use Rattle.irv.specs.Sets.{has};
ghost use Rattle.ballot.specs.Values.{contest_slate, FirstUnfit};
ghost use Rattle.ballot.specs.declared.refusal.Refusal.TheVariants.{CandidatesOutOfRange};

use crate::candidate_set::CandidateSet;
use crate::contest::Contest;
use crate::refusal::Refusal;

impl Contest {
    pub fn new(candidates: u32) -> Result<Contest, Refusal>
        ensures { MatchResult result (λ k. Proper (slate candidates) × (contest_slate k ≡ slate candidates)) (λ e. (Proper (slate candidates) → ⊥) × (e ≡ CandidatesOutOfRange)) }
    {
        match candidates {
            2..=16 => Ok(Contest { candidates }),
            _ => Err(Refusal::CandidatesOutOfRange),
        }
    }

    pub fn candidates(&self) -> u32
        ensures value { slate result ≡ contest_slate self.now }
        ensures proper { Proper (slate result) }
    {
        self.candidates
    }

    pub fn is_candidate(&self, candidate: u32) -> bool
        ensures { result ≡ member (contest_slate self.now) candidate }
    {
        1 <= candidate && candidate <= self.candidates
    }

    // Every candidate of the contest.
    pub fn everyone(&self) -> CandidateSet
        ensures { (c : ℕ) → has result c ≡ member (contest_slate self.now) c }
    {
        let mut all = CandidateSet::new();
        for candidate in 1..=self.candidates {
            all.insert(candidate);
        }
        all
    }

    // The place of the first number that makes no ranking of the list: a foreign candidate, or one that came before.
    pub fn first_unfit(&self, candidates: &[u32]) -> Option<usize>
        ensures { FirstUnfit (contest_slate self.now) candidates.now result }
    {
        // A loop, since each number is held against those before it.
        let mut seen = CandidateSet::new();
        for (i, candidate) in candidates.iter().enumerate() {
            if !self.is_candidate(*candidate) {
                return Some(i);
            }
            if seen.has(*candidate) {
                return Some(i);
            }
            seen.insert(*candidate);
        }
        None
    }
}
