// Making a group, and reading it.
ghost use Rattle.std.specs.Prelude.{◌≡◌, ◌≤◌, MatchResult};
ghost use Rattle.ballot.specs.declared.refusal.Refusal.TheVariants.{CountOutOfRange};

use crate::group::Group;
use crate::ranking::Ranking;
use crate::refusal::Refusal;

impl Group {
    // `count` ballots with this ranking; a group of none is refused.
    pub fn new(ranking: Ranking, count: u32) -> Result<Group, Refusal>
        ensures { MatchResult result (λ g. (1 ≤ count) × ((g.ranking ≡ ranking) × (g.count ≡ count))) (λ e. (count ≡ 0) × (e ≡ CountOutOfRange)) }
    {
        if count < 1 {
            return Err(Refusal::CountOutOfRange);
        }
        Ok(Group { ranking, count })
    }

    pub fn ranking(&self) -> Ranking
        ensures { result ≡ self.now.ranking }
    {
        self.ranking
    }

    pub fn count(&self) -> u32
        ensures { result ≡ self.now.count }
    {
        self.count
    }
}
