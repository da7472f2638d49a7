// The count of the bytes put.
ghost use Rattle.std.specs.Prelude.{◌≡◌};
ghost use Rattle.page.specs.Counting.{length_of};

use crate::page_length::PageLength;

impl PageLength {
    // Nothing put yet.
    pub fn new() -> PageLength
        ensures { length_of result ≡ 0 }
    {
        PageLength { bytes: 0 }
    }

    // How many bytes were put, or the largest u64 where they are more.
    pub fn bytes(&self) -> u64
        ensures { result ≡ length_of self.now }
    {
        self.bytes
    }
}
