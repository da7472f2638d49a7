// Groups that a caller lends, as a ballot source.
ghost use Rattle.std.specs.Prelude.{◌≡◌, ◌≤◌, true, map, length};
ghost use Rattle.irv.specs.Ballots.{ballots as ballots_of, most_ballots};
ghost use Rattle.ballot.specs.Values.{group_value, all_of_contest};

use crate::contest::Contest;
use crate::group::Group;

pub mod methods;

// `ballots` is how many ballots the groups have together, and `place` the next group to hand out.
#[derive(Drop)]
pub struct LentGroups<'g> {
    contest: Contest,
    groups: &'g [Group],
    ballots: u32,
    place: usize,
    ghost one_contest: { all_of_contest contest.candidates groups.now ≡ true },
    ghost sum: { ballots ≡ ballots_of (map group_value groups.now) },
    ghost few: { ballots ≤ most_ballots },
    ghost within: { place ≤ length groups.now },
}
