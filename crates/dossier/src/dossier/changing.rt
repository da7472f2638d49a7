// Entering and withdrawing assertions.
ghost use Rattle.audit.specs.Calls.{enters, withdraws, Answers};
ghost use Rattle.dossier.specs.Dossiers.{state, LivePlace};

use crate::dossier::Dossier;
use crate::dossier::opening::MOST_ENTERED;
use crate::event::StageEvent;
use assertion::assertion::Assertion;
use assertion::assorter::Assorter;
use audit::records::AssertionRecord;
use ballot::refusal::Refusal;

impl Dossier {
    // The place of the live record with this number. Numbers and places turn into each other by `as`: a number is a u32 and
    // a place a usize, between which every other conversion may fail.
    pub(crate) fn live_place(&self, number: u32) -> Result<usize, Refusal>
        ensures { LivePlace (state self.now) number result }
    {
        let place = (number as usize)
            .checked_sub(1)
            .ok_or(Refusal::NumberNotLive)?;
        match self.records.get(place) {
            Some(entered) if entered.live => Ok(place),
            _ => Err(Refusal::NumberNotLive),
        }
    }

    // Gives the assertion the next number, from 1, and goes back to the plain stage. An assertion that does not fit the
    // contest is refused, and so is one more than 256.
    pub fn enter(&mut self, assertion: Assertion) -> Result<u32, Refusal>
        ensures { Answers (enters assertion) (state self.old) result (state self.new) }
    {
        assertion.judge(self.contest)?;
        let given = self.records.len();
        if given >= MOST_ENTERED {
            return Err(Refusal::DossierFull);
        }
        self.records.push_reserved(AssertionRecord {
            assertion,
            live: true,
            margin: 0,
        });
        self.go_on(StageEvent::Entered);
        Ok(given as u32 + 1)
    }

    // Takes out a live number, which is not given again, and goes back to the plain stage.
    pub fn withdraw(&mut self, number: u32) -> Result<(), Refusal>
        ensures { Answers (withdraws number) (state self.old) result (state self.new) }
    {
        let place = self.live_place(number)?;
        self.records[place].live = false;
        self.go_on(StageEvent::Withdrawn);
        Ok(())
    }
}
