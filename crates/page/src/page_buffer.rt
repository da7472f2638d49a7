// A page in memory that was lent.

pub mod methods;

// The next byte goes to `len`; where the memory is full, nothing more is put. The memory is held whole with a length
// beside it, since what was put is said of the whole, of which a slice of the rest shows nothing.
#[derive(Drop)]
pub struct PageBuffer<'b> {
    pub bytes: &'b mut [u8],
    pub len: usize,
}
