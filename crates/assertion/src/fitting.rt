// Tests of the numbers of an assertion, with the cause where one fails.
ghost use Rattle.std.specs.Prelude.{◌≡◌, not, ◌==◌, [], ◌∷◌, option_map};
ghost use Rattle.irv.specs.Assertions.{foreign, same, foreign_in, members_of, unless};
ghost use Rattle.ballot.specs.Values.{contest_slate};
ghost use Rattle.assertion.specs.Causes.{meant, judgement};

use crate::cause::Cause;
use ballot::candidate_set::CandidateSet;
use ballot::contest::Contest;

// The cause, where the test failed.
pub(crate) fn require(holds: bool, cause: Cause) -> Result<(), Cause>
    ensures { judgement result ≡ unless holds (meant cause) }
{
    if holds { Ok(()) } else { Err(cause) }
}

// Ok where the number is a candidate; else the cause.
pub(crate) fn stands(contest: Contest, candidate: u32) -> Result<(), Cause>
    ensures { judgement result ≡ foreign_in (contest_slate contest) (candidate ∷ []) }
{
    require(contest.is_candidate(candidate), Cause::Foreign(candidate))
}

// Ok where both numbers are candidates; else the first cause. The two are no type of their own, since any two
// numbers make an assertion.
pub(crate) fn both_stand(contest: Contest, winner: u32, loser: u32) -> Result<(), Cause>
    ensures { judgement result ≡ foreign_in (contest_slate contest) (winner ∷ loser ∷ []) }
{
    stands(contest, winner)?;
    stands(contest, loser)
}

// The lowest member of the set that is no candidate.
fn lowest_foreign(contest: Contest, set: CandidateSet) -> Option<u32>
    ensures { option_map foreign result ≡ foreign_in (contest_slate contest) (members_of set) }
{
    (1..=16).find(|c| set.has(*c) && !contest.is_candidate(*c))
}

// Ok where each member of the set is a candidate; else the cause.
pub(crate) fn all_stand(contest: Contest, set: CandidateSet) -> Result<(), Cause>
    ensures { judgement result ≡ foreign_in (contest_slate contest) (members_of set) }
{
    match lowest_foreign(contest, set) {
        Some(foreign) => Err(Cause::Foreign(foreign)),
        None => Ok(()),
    }
}

// Ok where the two are different candidates; else the cause.
pub(crate) fn differ(winner: u32, loser: u32) -> Result<(), Cause>
    ensures { judgement result ≡ unless (not (winner == loser)) (same winner) }
{
    require(winner != loser, Cause::Same(winner))
}
