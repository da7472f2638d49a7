// Why a text of ballots was refused, and where.
ghost use Rattle.std.specs.Prelude.{◌≡◌};

use ballot::refusal::Refusal;
use ballot_line::LineFault;

// The line and the byte in it count from 1; both are 0 where the cause is no line. Numbers and no Option, since line 0 and
// byte 0 are what is answered then.
#[derive(Clone, Copy, Debug, PartialEq, Eq)]
pub struct Fault {
    pub cause: Refusal,
    pub line: usize,
    pub byte: usize,
}

impl Fault {
    // The fault of the line with this number.
    pub(crate) fn on_line(line: usize, fault: LineFault) -> Fault
        ensures { result ≡ record { cause = fault.cause; line = line; byte = fault.byte } }
    {
        Fault {
            cause: fault.cause,
            line,
            byte: fault.byte,
        }
    }
}

// A refusal that is no line's.
impl From<Refusal> for Fault {
    ghost from_gives = { λ cause fault. fault ≡ record { cause = cause; line = 0; byte = 0 } };

    fn from(cause: Refusal) -> Fault {
        Fault {
            cause,
            line: 0,
            byte: 0,
        }
    }
}
