// Making a ranking, and reading it.
ghost use Rattle.std.specs.Prelude.{◌≡◌, true, false, MatchResult};
ghost use Rattle.irv.specs.Ballots.{ranks, owner};
ghost use Rattle.ballot.specs.Values.{contest_slate, ranking_slate, ranked};
ghost use Rattle.irv.specs.Ballots.{slate};
ghost use Rattle.ballot.specs.declared.refusal.Refusal.TheVariants.{CandidateForeignOrRepeated};

use crate::candidate_set::CandidateSet;
use crate::contest::Contest;
use crate::ranking::Ranking;
use crate::refusal::Refusal;
use fixed_list::FixedList;

impl Ranking {
    // The ranking of these candidates, best first, or a refusal where one is foreign or comes again.
    pub fn new(contest: Contest, candidates: &[u32]) -> Result<Ranking, Refusal>
        ensures { MatchResult result (λ k. (ranks (contest_slate contest) candidates.now ≡ true) × ((ranked k ≡ candidates.now) × (ranking_slate k ≡ contest_slate contest))) (λ e. (ranks (contest_slate contest) candidates.now ≡ false) × (e ≡ CandidateForeignOrRepeated)) }
    {
        if contest.first_unfit(candidates).is_some() {
            return Err(Refusal::CandidateForeignOrRepeated);
        }
        let mut list = FixedList::new();
        for candidate in candidates {
            list.push(*candidate).unwrap();
        }
        Ok(Ranking {
            candidates: contest.candidates(),
            list,
        })
    }

    // How many candidates the contest has that the ranking was made for.
    pub fn candidates(&self) -> u32
        ensures { slate result ≡ ranking_slate self.now }
    {
        self.candidates
    }

    // The candidates that are ranked, best first.
    pub fn as_slice(&self) -> &[u32]
        ensures { result.now ≡ ranked self.now }
    {
        self.list.as_slice()
    }

    // Whom the ballot belongs to while `standing` stands, if anybody.
    pub fn first_in(&self, standing: &CandidateSet) -> Option<u32>
        ensures { result ≡ owner standing.now (ranked self.now) }
    {
        self.as_slice()
            .iter()
            .find(|candidate| standing.has(**candidate))
            .copied()
    }
}
