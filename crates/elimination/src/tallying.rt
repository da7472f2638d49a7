// The tallies of one step.
ghost use Rattle.std.specs.Prelude.{◌≡◌};
ghost use Rattle.irv.specs.Tables.{Shows};
ghost use Rattle.ballot.specs.Sources.{SameBallots};

use crate::tallies::Tallies;
use ballot::candidate_set::CandidateSet;
use ballot::source::BallotSource;

// Adds up the groups from the source's place on. From the start that is how many ballots belong to each
// candidate while `standing` stands.
fn tally_rest<S: BallotSource>(source: &mut S, standing: &CandidateSet) -> Tallies
    ensures same { SameBallots S.contest S.groups source.old source.new }
    ensures tallies { S.place source.old ≡ 0 → Shows (S.contest source.old) (S.groups source.old) standing.now result.counts }
{
    let mut tallies = Tallies::default();
    // A source is no iterator: its `next` may read a text again, and says by its own clauses what it hands out.
    while let Some(group) = source.next() {
        if let Some(owner) = group.ranking().first_in(standing) {
            tallies.add(owner, group.count());
        }
    }
    tallies
}

// How many ballots belong to each candidate while `standing` stands. The source's place moves.
pub(crate) fn tally_all<S: BallotSource>(source: &mut S, standing: &CandidateSet) -> Tallies
    ensures same { SameBallots S.contest S.groups source.old source.new }
    ensures tallies { Shows (S.contest source.old) (S.groups source.old) standing.now result.counts }
{
    source.rewind();
    tally_rest(source, standing)
}
