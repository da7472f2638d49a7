// Which questions to a rule are about a step.
ghost use Rattle.std.specs.Prelude.{◌≡◌};
ghost use Rattle.irv.specs.Recounts.{is_step};
ghost use Rattle.ballot.specs.Values.{contest_slate};

use ballot::candidate_set::CandidateSet;
use ballot::contest::Contest;

// Whether `out` can go out of `standing` in a step of the contest: candidates of the contest alone stand, `out` among
// them and not alone.
pub fn is_step(contest: Contest, standing: CandidateSet, out: u32) -> bool
    ensures { result ≡ is_step (contest_slate contest) standing out }
{
    let mut alone = CandidateSet::new();
    alone.insert(out);
    standing.within(&contest.everyone()) && standing.has(out) && standing != alone
}
