// MAJ: the winner is first on more than `part` in `whole` of the ballots that rank anybody.
ghost use Rattle.std.specs.Prelude.{◌≡◌};
ghost use Rattle.irv.specs.Assertions.{maj, maj_value, maj_rules, fraction_fits};
ghost use Rattle.irv.proofs.Assertions.{maj_law};

use crate::assorter::Assorter;
use crate::cause::Cause;
use crate::fitting::{require, stands};
use crate::reading::is_first;
use ballot::candidate_set::CandidateSet;
use ballot::contest::Contest;
use ballot::ranking::Ranking;

#[derive(Clone, Copy)]
pub struct Majority {
    pub winner: u32,
    pub part: u32,
    pub whole: u32,
}

// Whether the fraction is one that a majority may be asked for: from a half to below the whole.
fn fraction_fits(part: u32, whole: u32) -> bool
    ensures { result ≡ fraction_fits part whole }
{
    (2..=1000).contains(&whole) && part < whole && whole <= 2 * part
}

impl Assorter for Majority {
    ghost written = { λ a. maj a.winner a.part a.whole };

    ghost value = { λ a. maj_value a.winner a.part a.whole };

    ghost top = { λ a. a.whole };

    ghost half = { λ a. a.part };

    ghost rules = { λ a. maj_rules a.winner };

    ghost sound = { λ x s h. maj_law s x.winner x.part x.whole h };

    fn value(&self, ranking: &Ranking) -> u32 {
        match ranking.as_slice() {
            [] => self.part,
            ranked if is_first(ranked, self.winner) => self.whole,
            _ => 0,
        }
    }

    fn top(&self) -> u32 {
        self.whole
    }

    fn half(&self) -> u32 {
        self.part
    }

    fn rules_out(&self, _standing: CandidateSet, out: u32) -> bool {
        out == self.winner
    }

    fn judge(&self, contest: Contest) -> Result<(), Cause> {
        stands(contest, self.winner)?;
        require(fraction_fits(self.part, self.whole), Cause::Fraction)
    }
}
