// NEN: the winner has more ballots than the loser while a set stands.
ghost use Rattle.irv.specs.Assertions.{nen, nen_value, nen_rules, members_of};
ghost use Rattle.assertion.specs.Sound.{nen_set_law};

use crate::assorter::Assorter;
use crate::cause::Cause;
use crate::fitting::{all_stand, both_stand, differ, require};
use ballot::candidate_set::CandidateSet;
use ballot::contest::Contest;
use ballot::ranking::Ranking;

#[derive(Clone, Copy)]
pub struct Nen {
    pub winner: u32,
    pub loser: u32,
    pub standing: CandidateSet,
}

impl Assorter for Nen {
    ghost written = { λ a. nen a.winner a.loser (members_of a.standing) };

    ghost value = { λ a. nen_value a.winner a.loser a.standing };

    ghost top = { λ a. 2 };

    ghost half = { λ a. 1 };

    ghost rules = { λ a. nen_rules a.winner a.standing };

    ghost sound = { λ x s h. nen_set_law s x.winner x.loser x.standing h };

    fn value(&self, ranking: &Ranking) -> u32 {
        match ranking.first_in(&self.standing) {
            Some(owner) if owner == self.winner => 2,
            Some(owner) if owner == self.loser => 0,
            _ => 1,
        }
    }

    fn top(&self) -> u32 {
        2
    }

    fn half(&self) -> u32 {
        1
    }

    fn rules_out(&self, standing: CandidateSet, out: u32) -> bool {
        out == self.winner && standing == self.standing
    }

    fn judge(&self, contest: Contest) -> Result<(), Cause> {
        both_stand(contest, self.winner, self.loser)?;
        all_stand(contest, self.standing)?;
        differ(self.winner, self.loser)?;
        require(
            self.standing.has(self.winner),
            Cause::LacksWinner(self.winner),
        )?;
        require(self.standing.has(self.loser), Cause::LacksLoser(self.loser))
    }
}
