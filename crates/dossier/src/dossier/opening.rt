// Opening a dossier.
ghost use Rattle.std.specs.Prelude.{◌≡◌, Some, None, MatchResult};
ghost use Rattle.ballot.specs.Values.{contest_slate};
ghost use Rattle.irv.specs.Ballots.{slate};
ghost use Rattle.audit.specs.States.{opening, opening_refusal, Opens};
ghost use Rattle.dossier.specs.Dossiers.{state, NotOpened};

use crate::dossier::Dossier;
use crate::open_error::OpenError;
use audit::stage::Stage;
use ballot::contest::Contest;
use ballot::refusal::Refusal;
use std::alloc::Global;

// How many assertions are ever entered into one dossier.
pub(crate) const MOST_ENTERED: usize = 256;

// The largest factor, in thousandths.
const MOST_FACTOR: u32 = 1_000_000;

// The contest of a dossier that may be opened for these numbers.
fn judged(candidates: u32, winner: u32, factor: u32) -> Result<Contest, Refusal>
    ensures { MatchResult result (λ k. (opening_refusal (opening candidates winner factor) ≡ None) × (contest_slate k ≡ slate candidates)) (λ e. opening_refusal (opening candidates winner factor) ≡ Some e) }
{
    let contest = Contest::new(candidates)?;
    if !contest.is_candidate(winner) {
        return Err(Refusal::WinnerNotCandidate);
    }
    if !(1..=MOST_FACTOR).contains(&factor) {
        return Err(Refusal::FactorOutOfRange);
    }
    Ok(contest)
}

impl Dossier {
    // A new dossier: plain, and without assertions. The factor is in thousandths. Room for every assertion that may be
    // entered is reserved here, so that no later call wants memory.
    pub fn open(
        heap: Global,
        candidates: u32,
        winner: u32,
        factor: u32,
    ) -> Result<Dossier, OpenError>
        ensures { MatchResult result (λ d. Opens (opening candidates winner factor) (state d)) (λ e. NotOpened (opening candidates winner factor) e) }
    {
        let contest = judged(candidates, winner, factor)?;
        let records = Vec::with_capacity(heap, MOST_ENTERED)?;
        Ok(Dossier {
            contest,
            winner,
            factor,
            records,
            stage: Stage::Plain,
            endings: 0,
            ballots: 0,
        })
    }
}
