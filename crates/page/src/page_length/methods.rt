// Bytes that are only counted.
ghost use Rattle.page.specs.Counting.{length_of, length_small, Counted, counted_joins};

use crate::page_length::PageLength;
use crate::sink::Sink;

impl Sink for PageLength {
    ghost took = { λ x bs y. Counted (length_of x) bs (length_of y) };

    ghost joins = { counted_joins length_of length_small };

    fn put(&mut self, _byte: u8) {
        self.bytes = self.bytes.saturating_add(1);
    }
}
