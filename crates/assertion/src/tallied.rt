// What tallying an assertion found.
ghost use Rattle.std.specs.Prelude.{◌≡◌, pos, int_lt};

// The values of all ballots together, and by how much that passes the half for each ballot.
#[derive(Clone, Copy, PartialEq, Eq, Debug)]
pub struct Tallied {
    pub sum: u64,
    pub margin: i64,
}

impl Tallied {
    // Whether the assertion holds on the ballots: its margin is above 0.
    pub fn holds(&self) -> bool
        ensures { result ≡ int_lt (pos 0) self.now.margin }
    {
        self.margin > 0
    }
}
