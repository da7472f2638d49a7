// One step of a count.
ghost use Rattle.std.specs.Prelude.{◌≡◌};
ghost use Rattle.irv.specs.Tables.{shown};

use crate::tallies::Tallies;

// Who goes out, and how many ballots each candidate has.
#[derive(Clone, Copy, Default)]
pub struct CountStep {
    pub(crate) out: u32,
    pub(crate) tallies: Tallies,
}

impl CountStep {
    // Who goes out.
    pub fn out(&self) -> u32
        ensures { result ≡ self.now.out }
    {
        self.out
    }

    // How many ballots `candidate` has at this step: 0 if it is out, or if it is no candidate.
    pub fn tally(&self, candidate: u32) -> u32
        ensures { result ≡ shown self.now.tallies.counts candidate }
    {
        self.tallies.of(candidate)
    }
}
