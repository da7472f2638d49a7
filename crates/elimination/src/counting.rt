// Counting the ballots of a source.
ghost use Rattle.std.specs.Prelude.{◌≡◌, ℕ, ◌≤◌, true};
ghost use Rattle.irv.specs.Sets.{has};
ghost use Rattle.irv.specs.Tables.{StepFrom};
ghost use Rattle.ballot.specs.Sources.{SameBallots};
ghost use Rattle.elimination.specs.Counts.{steps_of, Somebody, OneCount};

use crate::count::Count;
use crate::count_step::CountStep;
use crate::tallying::tally_all;
use ballot::candidate_set::CandidateSet;
use ballot::source::BallotSource;
use ballot::walk::contest_of;
use fixed_list::FixedList;

// One step: who has the fewest ballots goes out of `standing`, of equals the lowest number.
fn one_step<S: BallotSource>(source: &mut S, standing: &mut CandidateSet) -> CountStep
    requires somebody { Somebody standing.old }
    requires low { (c : ℕ) → has standing.old c ≡ true → c ≤ 16 }
    ensures same { SameBallots S.contest S.groups source.old source.new }
    ensures step { StepFrom (S.contest source.old) (S.groups source.old) standing.old result.out result.tallies.counts standing.new }
{
    let tallies = tally_all(source, standing);
    let out = tallies.least(standing).unwrap();
    standing.remove(out);
    CountStep { out, tallies }
}

// Counts the ballots: step by step the one with the fewest goes out, of equals the one with the lowest
// number, until one is left. The source's place moves, and nothing else of it.
pub fn count_ballots<S: BallotSource>(source: &mut S) -> Count
    ensures same { SameBallots S.contest S.groups source.old source.new }
    ensures count { OneCount (S.contest source.old) (S.groups source.old) (steps_of result) result.winner }
{
    let mut left = contest_of(source).everyone();
    let mut steps = FixedList::new();
    for _ in 1..source.candidates() {
        steps.push(one_step(source, &mut left)).unwrap();
    }
    // Half open, since the library has no law of a chain over `1..=16`.
    let winner = (1..17).find(|candidate| left.has(*candidate)).unwrap();
    Count { steps, winner }
}
