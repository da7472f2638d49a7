// One line of a dossier's table.
use assertion::assertion::Assertion;

// An assertion that was entered: whether it is live, and its margin on the ballots last tallied. The margin is no Option and
// not under the flag, since a record is so in the states of specs/. What is asked of a record stands with the calls that
// ask it, in dossier.
#[derive(Clone, Copy)]
pub struct AssertionRecord {
    pub assertion: Assertion,
    pub live: bool,
    pub margin: i64,
}
