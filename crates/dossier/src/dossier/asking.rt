// Asking for a margin.
ghost use Rattle.std.specs.Prelude.{◌≡◌};
ghost use Rattle.audit.specs.Calls.{margin_reply};
ghost use Rattle.audit.specs.States.{standing};
ghost use Rattle.dossier.specs.Dossiers.{state};

use crate::dossier::Dossier;
use crate::event::StageQuestion;
use assertion::assorter::Assorter;
use ballot::refusal::Refusal;

impl Dossier {
    // The margin of a live assertion on the ballots of the last tally, and the highest value that it gives a ballot.
    pub fn margin(&self, number: u32) -> Result<(i64, u32), Refusal>
        ensures { result ≡ margin_reply (standing (state self.now)) number }
    {
        let place = self.live_place(number)?;
        self.may_answer(StageQuestion::Margin)?;
        let entered = &self.records[place];
        Ok((entered.margin, entered.assertion.top()))
    }
}
