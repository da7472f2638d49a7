// Opening lent groups, and handing them out.
ghost use Rattle.std.specs.Prelude.{◌≡◌, ◌<◌, ◌≤◌, map, MatchResult};
ghost use Rattle.irv.specs.Ballots.{ballots, most_ballots};
ghost use Rattle.ballot.specs.Sources.{LentRefused};
ghost use Rattle.ballot.specs.Values.{contest_slate, group_value, all_of_contest};
ghost use Rattle.ballot.specs.LentSound.{lent_sound};
ghost use Rattle.ballot.specs.declared.refusal.Refusal.TheVariants.{CountOutOfRange};

use crate::contest::Contest;
use crate::group::Group;
use crate::lent::LentGroups;
use crate::refusal::Refusal;
use crate::source::{BallotSource, MOST_BALLOTS};

// How many ballots the groups have together, or a refusal where that is too many.
fn sum_of(groups: &[Group]) -> Result<u32, Refusal>
    ensures { MatchResult result (λ n. (n ≡ ballots (map group_value groups.now)) × (n ≤ most_ballots)) (λ e. (most_ballots < ballots (map group_value groups.now)) × (e ≡ CountOutOfRange)) }
{
    // A loop, since it ends where the sum would be more than a source may have.
    let mut sum = 0;
    for group in groups {
        if group.count() > MOST_BALLOTS - sum {
            return Err(Refusal::CountOutOfRange);
        }
        sum += group.count();
    }
    Ok(sum)
}

// Whether every ranking was made for this contest.
fn of_contest(contest: Contest, groups: &[Group]) -> bool
    ensures { result ≡ all_of_contest contest.candidates groups.now }
{
    groups.iter().all(|group| group.ranking().candidates() == contest.candidates())
}

impl<'g> LentGroups<'g> {
    // These groups as a source: too many ballots are refused first, then a ranking of another contest.
    pub fn open(contest: Contest, groups: &'g [Group]) -> Result<LentGroups<'g>, Refusal>
        ensures { MatchResult result (λ s. (s.contest ≡ contest) × ((s.groups.now ≡ groups.now) × (s.place ≡ 0))) (λ e. LentRefused contest.candidates groups.now e) }
    {
        let ballots = sum_of(groups)?;
        if !of_contest(contest, groups) {
            return Err(Refusal::OtherContest);
        }
        Ok(LentGroups {
            contest,
            groups,
            ballots,
            place: 0,
        })
    }
}

impl<'g> BallotSource for LentGroups<'g> {
    ghost contest = { λ s. contest_slate s.contest };

    ghost groups = { λ s. map group_value s.groups.now };

    ghost place = { λ s. s.place };

    ghost sound = { λ s. lent_sound s.contest.candidates s.ballots s.place s.groups.now s.contest.proper s.one_contest s.sum s.few s.within };

    fn candidates(&self) -> u32 {
        self.contest.candidates()
    }

    fn ballots(&self) -> u32 {
        self.ballots
    }

    fn rewind(&mut self) {
        self.place = 0;
    }

    fn next(&mut self) -> Option<Group> {
        let group = self.groups.get(self.place)?;
        self.place += 1;
        Some(*group)
    }
}
