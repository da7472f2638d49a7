// What the live assertions rule out.
ghost use Rattle.std.specs.Prelude.{◌≡◌, ◌&&◌};
ghost use Rattle.irv.specs.Ballots.{slate};
ghost use Rattle.irv.specs.Assertions.{rules_any};
ghost use Rattle.search.specs.Rules.{nothing_lent};
ghost use Rattle.assertion.specs.Kinds.{rules_kind};
ghost use Rattle.audit.specs.Entries.{lines_from, entries, rules_of_entries};
ghost use Rattle.dossier.specs.Rules.{records_ruling, records_sound};

use crate::live::LiveAssertions;
use assertion::assorter::Assorter;
use audit::records::AssertionRecord;
use ballot::candidate_set::CandidateSet;
use search::rule::Rule;
use search::step::is_step;

// Whether the record is live and its assertion rules out that `out` goes out of `standing`.
fn forbids(entered: &AssertionRecord, standing: CandidateSet, out: u32) -> bool
    ensures { result ≡ (entered.now.live && rules_kind entered.now.assertion standing out) }
{
    entered.live && entered.assertion.rules_out(standing, out)
}

// Whether some record does.
fn any_forbids(records: &[AssertionRecord], standing: CandidateSet, out: u32) -> bool
    ensures { result ≡ rules_any (rules_of_entries (entries (lines_from 1 records.now))) standing out }
{
    records
        .iter()
        .any(|entered| forbids(entered, standing, out))
}

impl<'d> Rule for LiveAssertions<'d> {
    ghost contest = { λ x. slate x.contest.candidates };

    ghost ruling = { λ x. records_ruling x.contest.candidates x.records.now };

    ghost sound = { λ x. records_sound x.contest.candidates x.records.now x.contest.proper };

    ghost kept = { λ _ _. Unit {0} };

    ghost chains = { nothing_lent };

    fn candidates(&self) -> u32 {
        self.contest.candidates()
    }

    fn rules_out(&mut self, standing: CandidateSet, out: u32) -> bool {
        is_step(self.contest, standing, out) && any_forbids(self.records, standing, out)
    }
}
