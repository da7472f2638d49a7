// What hands out ballots, group by group.
ghost use Rattle.std.specs.Prelude.{◌≡◌, ℕ, List};
ghost use Rattle.irv.specs.Ballots.{Slate, slate, BallotGroup, ballots};
ghost use Rattle.ballot.specs.Sources.{SoundSource, SameBallots, HandsOut};

use crate::group::Group;

// The most ballots that the groups of a source have together.
pub const MOST_BALLOTS: u32 = 100_000_000;

// A source stands for a contest, a list of groups, and a place in that list.
pub trait BallotSource {
    ghost contest: { Self → Slate };

    ghost groups: { Self → List BallotGroup };

    ghost place: { Self → ℕ };

    // The contest is proper, the groups fit it, and the place lies in the list.
    ghost sound: { (s : Self) → SoundSource (contest s) (groups s) (place s) };

    fn candidates(&self) -> u32
        ensures { slate result ≡ contest self.now };

    // How many ballots there are in all groups.
    fn ballots(&self) -> u32
        ensures { result ≡ ballots (groups self.now) };

    // Puts the place at the start.
    fn rewind(&mut self)
        ensures same { SameBallots contest groups self.old self.new }
        ensures start { place self.new ≡ 0 };

    // The group at the place, which moves on by one; at the end nothing, and the place stays.
    fn next(&mut self) -> Option<Group>
        ensures same { SameBallots contest groups self.old self.new }
        ensures cases { HandsOut (contest self.old) (groups self.old) (place self.old) result (place self.new) };
}
