// Why an assertion does not fit a contest.
ghost use Rattle.std.specs.Prelude.{◌≡◌};
ghost use Rattle.irv.specs.Assertions.{cause_number};
ghost use Rattle.ballot.specs.Refusals.{refusal_number};
ghost use Rattle.assertion.specs.Causes.{meant, cause_refusal};

use ballot::refusal::Refusal;

// Each case names the number that is at fault.
#[derive(Clone, Copy, PartialEq, Eq, Debug)]
pub enum Cause {
    Foreign(u32),
    Same(u32),
    Unascending(u32),
    LacksWinner(u32),
    LacksLoser(u32),
    Fraction,
}

// The refusal that a cause leads to.
impl From<Cause> for Refusal {
    ghost from_gives = { λ cause refusal. refusal ≡ cause_refusal (meant cause) };

    fn from(cause: Cause) -> Refusal
        ensures value { result ≡ cause_refusal (meant cause) }
        ensures number { refusal_number result ≡ cause_number (meant cause) }
    {
        match cause {
            Cause::Foreign(_)
            | Cause::Same(_)
            | Cause::Unascending(_)
            | Cause::LacksWinner(_)
            | Cause::LacksLoser(_) => Refusal::AssertionUnfit,
            Cause::Fraction => Refusal::FractionOutOfRange,
        }
    }
}
