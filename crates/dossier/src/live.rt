// The live assertions of a dossier as a rule.
use audit::records::AssertionRecord;
use ballot::contest::Contest;

pub(crate) mod methods;

// Rules out each step of the contest that a live assertion rules out.
#[derive(Drop)]
pub(crate) struct LiveAssertions<'d> {
    pub(crate) contest: Contest,
    pub(crate) records: &'d [AssertionRecord],
}
