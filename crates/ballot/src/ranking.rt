// A ranking of candidates, best first.
ghost use Rattle.std.specs.Prelude.{◌≡◌, ◌≤◌, true};
ghost use Rattle.irv.specs.Ballots.{slate, ranks};
ghost use Rattle.fixed_list.specs.Lists.{listed};

use fixed_list::FixedList;

pub mod methods;

// Different candidates of a contest of `candidates`. No model, since the laws of sources cite a ranking's own `fits`.
#[derive(Clone, Copy)]
pub struct Ranking {
    candidates: u32,
    list: FixedList<u32, 16>,
    ghost proper: { (2 ≤ candidates) × (candidates ≤ 16) },
    ghost fits: { ranks (slate candidates) (listed list) ≡ true },
}
