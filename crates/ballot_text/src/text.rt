// The bytes of a text of ballots, lent by a caller.
ghost use Rattle.std.specs.Prelude.{◌^◌, ◌<◌, length};

pub mod methods;

#[derive(Clone, Copy)]
pub struct BallotText<'t> {
    bytes: &'t [u8],
    ghost short: { length bytes.now < 2 ^ 63 },
}
