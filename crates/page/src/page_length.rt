// How long a page is.
ghost use Rattle.std.specs.Prelude.{◌^◌, ◌<◌};

mod count;
pub mod methods;

// Counts the bytes put, up to the largest u64, and keeps none.
#[derive(Drop)]
pub struct PageLength {
    bytes: u64,
    ghost small: { bytes < 2 ^ 64 },
}
