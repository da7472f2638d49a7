// The plan.
ghost use Rattle.std.specs.Prelude.{◌≡◌, not, ◌&&◌, length, pos, int_lt};
ghost use Rattle.audit.specs.Entries.{lines_from};
ghost use Rattle.audit.specs.Calls.{plans, Answers, first_failing};
ghost use Rattle.audit.specs.Laws.{EveryHistory};
ghost use Rattle.dossier.specs.Dossiers.{state, planned, Written};

use crate::dossier::Dossier;
use crate::event::StageQuestion;
use audit::records::AssertionRecord;
use ballot::refusal::Refusal;

// Whether the record is live and does not hold on the ballots: its margin is not above 0.
fn fails(entered: &AssertionRecord) -> bool
    ensures { result ≡ (entered.now.live && not (int_lt (pos 0) entered.now.margin)) }
{
    entered.live && entered.margin <= 0
}

impl Dossier {
    // The lowest number of a live assertion that does not hold.
    fn first_failing(&self) -> Option<u32>
        ensures { result ≡ first_failing (lines_from 1 self.now.records.items) }
    {
        // By `as`, as between numbers and places.
        let place = self.records.iter().position(fails)?;
        Some(place as u32 + 1)
    }

    // Writes the page into the buffer and answers its length; bytes behind it stay. Refused without a check that accepted
    // and a tally since the last change, where a live assertion does not hold, and where the buffer is too short; a
    // refusal leaves every byte as it was.
    pub fn plan(&self, page: &mut [u8]) -> Result<usize, Refusal>
        ensures answer { Answers (plans (length page.old)) (state self.now) (planned result page.new) (state self.now) }
        ensures written { Written (state self.now) result page.old page.new }
        ensures laws { EveryHistory }
    {
        self.may_answer(StageQuestion::Plan)?;
        if let Some(number) = self.first_failing() {
            return Err(Refusal::AssertionDoesNotHold(number));
        }
        // By `as` here and below, since a usize has no other conversion that cannot fail.
        let needed = self.page_length();
        if needed > page.len() as u64 {
            return Err(Refusal::BufferTooShort(needed));
        }
        self.store_page(page);
        Ok(needed as usize)
    }
}
