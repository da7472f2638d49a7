// What every kind of assertion can do.
ghost use Rattle.std.specs.Prelude.{◌≡◌, ℕ, List, None};
ghost use Rattle.irv.specs.Ballots.{Slate};
ghost use Rattle.irv.specs.Endings.{Ruling};
ghost use Rattle.irv.specs.Assertions.{Written, judged};
ghost use Rattle.irv.specs.AssertionLaws.{SoundAssorter};
ghost use Rattle.ballot.specs.Values.{contest_slate, ranked};
ghost use Rattle.assertion.specs.Causes.{judgement};

use crate::cause::Cause;
use ballot::candidate_set::CandidateSet;
use ballot::contest::Contest;
use ballot::ranking::Ranking;

// An assertion gives each ballot a value from 0 to its top. It holds where the values sum to more than its
// half for each ballot, and rules out some steps. Any numbers make one, whether they fit a contest or not.
pub trait Assorter {
    // How it is written.
    ghost written: { Self → Written };

    ghost value: { Self → List ℕ → ℕ };

    ghost top: { Self → ℕ };

    ghost half: { Self → ℕ };

    ghost rules: { Self → Ruling };

    // One that fits its contest keeps within its bounds, and where it holds it rules out rightly.
    ghost sound: { (x : Self) (s : Slate) → judged s (written x) ≡ None → SoundAssorter s (value x) (top x) (half x) (rules x) };

    // What it is worth on a ballot with this ranking.
    fn value(&self, ranking: &Ranking) -> u32
        ensures { result ≡ value self.now (ranked ranking.now) };

    // The highest value. It has no default of 2, since a default is proved for every implementation at once.
    fn top(&self) -> u32
        ensures { result ≡ top self.now };

    // What the sum of the values has to pass for each ballot.
    fn half(&self) -> u32
        ensures { result ≡ half self.now };

    // Whether it rules out that `out` goes out of `standing`.
    fn rules_out(&self, standing: CandidateSet, out: u32) -> bool
        ensures { result ≡ rules self.now standing out };

    // The first cause why it does not fit the contest, where it does not.
    fn judge(&self, contest: Contest) -> Result<(), Cause>
        ensures { judgement result ≡ judged (contest_slate contest) (written self.now) };
}
