// The recount: whether some count of the ballots elects another.
ghost use Rattle.std.specs.Prelude.{◌≡◌, true, false, MatchResult, OnErr};
ghost use Rattle.irv.specs.Ballots.{member};
ghost use Rattle.irv.specs.Recounts.{ballots_ruling, RecountLaws};
ghost use Rattle.ballot.specs.Sources.{SameBallots};
ghost use Rattle.ballot.specs.declared.refusal.Refusal.TheVariants.{WinnerNotCandidate};
ghost use Rattle.search.specs.Searches.{Searched};

use crate::ballots_rule::BallotsRule;
use ballot::refusal::Refusal;
use ballot::source::BallotSource;
use ballot::walk::contest_of;
use search::answer::Answer;
use search::searching::find_survivor;

// Searches with the source's ballots as the rule: the count that elects another than `winner` and comes first when
// written backwards, or none, which says that every count elects the winner, ties broken in any manner. Stopped where
// more than `limit` endings would be tried. Where the winner is no candidate, the source is left as it was.
pub fn recount<S: BallotSource>(source: &mut S, winner: u32, limit: u64) -> Result<Answer, Refusal>
    ensures answer { MatchResult result (λ a. (member (S.contest source.old) winner ≡ true) × Searched (S.contest source.old) (ballots_ruling (S.contest source.old) (S.groups source.old)) winner limit a) (λ e. (member (S.contest source.old) winner ≡ false) × (e ≡ WinnerNotCandidate)) }
    ensures laws { RecountLaws }
    ensures same { SameBallots S.contest S.groups source.old source.new }
    ensures refused_place { OnErr result (S.place source.new ≡ S.place source.old) }
{
    if !contest_of(source).is_candidate(winner) {
        return Err(Refusal::WinnerNotCandidate);
    }
    find_survivor(&mut BallotsRule { source }, winner, limit)
}
