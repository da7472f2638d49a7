// Lending the bytes of a text.
ghost use Rattle.std.specs.Prelude.{◌≡◌};
ghost use Rattle.ballot_text.specs.Texts.{text_bytes};

use crate::text::BallotText;

impl<'t> BallotText<'t> {
    pub fn new(bytes: &'t [u8]) -> BallotText<'t>
        ensures { text_bytes result ≡ bytes.now }
    {
        BallotText { bytes }
    }

    pub fn bytes(&self) -> &'t [u8]
        ensures { result.now ≡ text_bytes self.now }
    {
        self.bytes
    }
}
