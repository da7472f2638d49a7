// A dossier.
ghost use Rattle.std.specs.Prelude.{◌≡◌, ◌≤◌, true, vec_len, vec_capacity};
ghost use Rattle.irv.specs.Ballots.{slate, member, most_ballots};
ghost use Rattle.audit.specs.Calls.{most_entered, most_endings};
ghost use Rattle.audit.specs.States.{most_factor};
ghost use Rattle.dossier.specs.Fine.{all_fine};

use audit::records::AssertionRecord;
use audit::stage::Stage;
use ballot::contest::Contest;

mod asking;
mod changing;
mod checking;
mod opening;
mod paging;
mod planning;
mod staging;
mod tallying;

// The assertions entered so far, in the order of their numbers from 1, with room for all that may ever be entered.
// `endings` is how many endings the last accepting check tried, and `ballots` how many the last tally read. They stand
// beside the stage and not in it, since the states of audit hold them at every stage.
#[derive(Drop)]
pub struct Dossier {
    contest: Contest,
    winner: u32,
    factor: u32,
    records: Vec<AssertionRecord>,
    stage: Stage,
    endings: u64,
    ballots: u32,
    ghost winner_stands: { member (slate contest.candidates) winner ≡ true },
    ghost factor_fits: { (1 ≤ factor) × (factor ≤ most_factor) },
    ghost room: { most_entered ≤ vec_capacity records },
    ghost few: { vec_len records ≤ most_entered },
    ghost fine: { all_fine (slate contest.candidates) records.items ≡ true },
    ghost few_ballots: { ballots ≤ most_ballots },
    ghost few_endings: { endings ≤ most_endings },
}
