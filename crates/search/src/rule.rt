// What rules out steps of elimination.
ghost use Rattle.std.specs.Prelude.{◌≡◌};
ghost use Rattle.irv.specs.Ballots.{Slate, slate};
ghost use Rattle.irv.specs.Endings.{Ruling};
ghost use Rattle.search.specs.Rules.{SoundRule, Chains, SameRule};

use ballot::candidate_set::CandidateSet;

// A rule stands for a contest and the steps of it that are ruled out.
pub trait Rule {
    ghost contest: { Self → Slate };

    ghost ruling: { Self → Ruling };

    // The contest is proper, and nothing but steps of it is ruled out.
    ghost sound: { (x : Self) → SoundRule (contest x) (ruling x) };

    // What else a question leaves as it was: for a rule that reads what a caller lent, that it is still the same.
    ghost kept: { Self → Self → Type 0 };

    ghost chains: { Chains kept };

    fn candidates(&self) -> u32
        ensures { slate result ≡ contest self.now };

    // Whether it is ruled out that `out` goes out of `standing`; where that is no step of the contest, it is not. The two
    // are no type of their own, since a question may be about no step at all.
    fn rules_out(&mut self, standing: CandidateSet, out: u32) -> bool
        ensures value { result ≡ ruling self.old standing out }
        ensures same { SameRule contest ruling kept self.old self.new };
}
