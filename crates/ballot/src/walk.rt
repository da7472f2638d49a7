// What can be asked of any source.
ghost use Rattle.std.specs.Prelude.{◌≡◌, length};
ghost use Rattle.ballot.specs.Sources.{SameBallots};
ghost use Rattle.ballot.specs.Values.{contest_slate};

use crate::contest::Contest;
use crate::source::BallotSource;

// The contest of the source.
pub fn contest_of<S: BallotSource>(source: &S) -> Contest
    ensures { contest_slate result ≡ S.contest source.now }
{
    Contest::new(source.candidates()).unwrap()
}

// How many groups the source has. Its place is left at the end.
pub fn groups_in<S: BallotSource>(source: &mut S) -> u32
    ensures value { result ≡ length (S.groups source.old) }
    ensures same { SameBallots S.contest S.groups source.old source.new }
    ensures end { S.place source.new ≡ length (S.groups source.old) }
{
    source.rewind();
    // Counted here, since a source is no iterator: its `next` says by its own clauses what it hands out.
    let mut groups = 0;
    while let Some(_) = source.next() {
        groups += 1;
    }
    groups
}
