// A count: its steps, and who is left.
ghost use Rattle.std.specs.Prelude.{◌≡◌};
ghost use Rattle.elimination.specs.Counts.{steps_of};

use crate::count_step::CountStep;
use fixed_list::FixedList;

#[derive(Clone, Copy)]
pub struct Count {
    pub(crate) steps: FixedList<CountStep, 15>,
    pub(crate) winner: u32,
}

impl Count {
    // The steps, first out first.
    pub fn steps(&self) -> &[CountStep]
        ensures { result.now ≡ steps_of self.now }
    {
        self.steps.as_slice()
    }

    // Who is left after the last step.
    pub fn winner(&self) -> u32
        ensures { result ≡ self.now.winner }
    {
        self.winner
    }
}
