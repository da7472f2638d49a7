// Bytes put into lent memory.
ghost use Rattle.page.specs.Laying.{LaidInto, laid_into_joins};

use crate::page_buffer::PageBuffer;
use crate::sink::Sink;

impl<'b> Sink for PageBuffer<'b> {
    ghost took = { λ x bs y. LaidInto x.bytes x.len bs y.bytes y.len };

    ghost joins = { laid_into_joins (λ x. x.bytes) (λ x. x.len) };

    fn put(&mut self, byte: u8) {
        // An index, since a proof knows nothing of a place after `get_mut` has lent it out of a field.
        if self.len < self.bytes.len() {
            self.bytes[self.len] = byte;
            self.len += 1;
        }
    }
}
