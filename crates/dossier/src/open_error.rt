// Why a dossier was not opened.
ghost use Rattle.std.specs.Prelude.{◌≡◌};
ghost use Rattle.dossier.specs.declared.open_error.OpenError.TheVariants.{Refused, OutOfMemory};

use ballot::refusal::Refusal;
use std::alloc::AllocError;

// A number is refused, or there is no memory for the table of assertions.
#[derive(Clone, Copy, Debug, PartialEq, Eq)]
pub enum OpenError {
    Refused(Refusal),
    OutOfMemory,
}

impl From<Refusal> for OpenError {
    ghost from_gives = { λ refusal error. error ≡ Refused refusal };

    fn from(refusal: Refusal) -> OpenError {
        OpenError::Refused(refusal)
    }
}

impl From<AllocError> for OpenError {
    ghost from_gives = { λ _ error. error ≡ OutOfMemory };

    fn from(_error: AllocError) -> OpenError {
        OpenError::OutOfMemory
    }
}
