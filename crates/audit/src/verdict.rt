// What a check says.
ghost use Rattle.std.specs.Prelude.{◌≡◌};
ghost use Rattle.audit.specs.Verdicts.{verdict_of};

use search::answer::Answer;
use search::ending::Ending;

// The live assertions contradict each order that elects another, or the first order that they do not contradict, with
// the number of endings tried; or the limit was too low to tell. A type beside that of a search, since specs/ says of each
// case what it means for a dossier.
#[derive(Clone, Copy)]
pub enum Verdict {
    Accepted(u64),
    Rejected(Ending, u64),
    Stopped,
}

// What a search by the live assertions found, as a verdict on them.
impl From<Answer> for Verdict {
    ghost from_gives = { λ answer verdict. verdict ≡ verdict_of answer };

    fn from(answer: Answer) -> Verdict {
        match answer {
            Answer::Stopped => Verdict::Stopped,
            Answer::Found(order, tried) => Verdict::Rejected(order, tried),
            Answer::NoSurvivor(tried) => Verdict::Accepted(tried),
        }
    }
}
