// NEB: the winner never goes out before the loser.
ghost use Rattle.irv.specs.Assertions.{neb, neb_value, neb_rules};
ghost use Rattle.irv.proofs.Assertions.{neb_law};

use crate::assorter::Assorter;
use crate::cause::Cause;
use crate::fitting::{both_stand, differ};
use crate::reading::{is_first, is_not_ahead};
use ballot::candidate_set::CandidateSet;
use ballot::contest::Contest;
use ballot::ranking::Ranking;

#[derive(Clone, Copy)]
pub struct Neb {
    pub winner: u32,
    pub loser: u32,
}

impl Assorter for Neb {
    ghost written = { λ a. neb a.winner a.loser };

    ghost value = { λ a. neb_value a.winner a.loser };

    ghost top = { λ a. 2 };

    ghost half = { λ a. 1 };

    ghost rules = { λ a. neb_rules a.winner a.loser };

    ghost sound = { λ x s h. neb_law s x.winner x.loser h };

    fn value(&self, ranking: &Ranking) -> u32 {
        let ranked = ranking.as_slice();
        if is_first(ranked, self.winner) {
            return 2;
        }
        if is_not_ahead(ranked, self.winner, self.loser) {
            return 0;
        }
        1
    }

    fn top(&self) -> u32 {
        2
    }

    fn half(&self) -> u32 {
        1
    }

    fn rules_out(&self, standing: CandidateSet, out: u32) -> bool {
        out == self.winner && standing.has(self.loser)
    }

    fn judge(&self, contest: Contest) -> Result<(), Cause> {
        both_stand(contest, self.winner, self.loser)?;
        differ(self.winner, self.loser)
    }
}
