// The stages of a dossier.
ghost use Rattle.std.specs.Prelude.{◌≡◌};
ghost use Rattle.audit.specs.Calls.{answered};
ghost use Rattle.dossier.specs.Dossiers.{state, stage_after, at_stage, lacking};

use crate::dossier::Dossier;
use crate::event::{StageEvent, StageQuestion};
use audit::stage::Stage;
use ballot::refusal::Refusal;

impl Dossier {
    // Goes on to the stage to which the event leads from this one. The stage and the event are matched together, so that
    // every way between stages stands in one table.
    pub(crate) fn go_on(&mut self, event: StageEvent)
        ensures { state self.new ≡ at_stage (stage_after event self.old.stage) (state self.old) }
    {
        self.stage = match (self.stage, event) {
            (_, StageEvent::Entered) => Stage::Plain,
            (_, StageEvent::Withdrawn) => Stage::Plain,
            (Stage::Plain | Stage::Checked, StageEvent::Accepted) => Stage::Checked,
            (Stage::Tallied | Stage::Ready, StageEvent::Accepted) => Stage::Ready,
            (Stage::Plain | Stage::Tallied, StageEvent::Tallied) => Stage::Tallied,
            (Stage::Checked | Stage::Ready, StageEvent::Tallied) => Stage::Ready,
        };
    }

    // Whether the marks of this stage suffice for the question; else why not. In one table, as above.
    pub(crate) fn may_answer(&self, question: StageQuestion) -> Result<(), Refusal>
        ensures { result ≡ answered (lacking question self.now.stage) tt }
    {
        match (self.stage, question) {
            (Stage::Plain | Stage::Tallied, StageQuestion::Plan) => Err(Refusal::NotChecked),
            (Stage::Checked, _) => Err(Refusal::NotTallied),
            (Stage::Plain, StageQuestion::Margin) => Err(Refusal::NotTallied),
            (Stage::Tallied, StageQuestion::Margin) => Ok(()),
            (Stage::Ready, _) => Ok(()),
        }
    }
}
