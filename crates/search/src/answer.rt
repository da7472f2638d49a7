// What a search comes to.
use crate::ending::Ending;

// A search stopped at its limit, or found the survivor, or found that there is none, and then says how many endings it
// tried. One of the three has no count, so that this is neither an Option nor a Result.
#[derive(Clone, Copy)]
pub enum Answer {
    Stopped,
    Found(Ending, u64),
    NoSurvivor(u64),
}
