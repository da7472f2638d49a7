// Tallying the live assertions.
ghost use Rattle.std.specs.Prelude.{◌≡◌, ◌≤◌, true, map, OnErr, unsigned_abs};
ghost use Rattle.irv.specs.Ballots.{Slate};
ghost use Rattle.ballot.specs.Sources.{SameBallots};
ghost use Rattle.ballot.specs.Values.{group_value};
ghost use Rattle.assertion.specs.Sums.{most_value};
ghost use Rattle.audit.specs.Calls.{tallies, Answers, retallied};
ghost use Rattle.dossier.specs.Dossiers.{state};
ghost use Rattle.dossier.specs.Fine.{all_fine};
ghost use Rattle.dossier.specs.Tallies.{gain_of, Bounded, cleared, with_group};

use crate::dossier::Dossier;
use crate::event::StageEvent;
use assertion::assertion::Assertion;
use assertion::assorter::Assorter;
use audit::records::AssertionRecord;
use ballot::group::Group;
use ballot::refusal::Refusal;
use ballot::source::BallotSource;

// What the ballots of a group add to the margin of an assertion.
fn gain(assertion: &Assertion, group: &Group) -> i64
    requires { Bounded assertion.now }
    ensures { result ≡ gain_of assertion.now (group_value group.now) }
{
    let above_half = i64::from(assertion.value(&group.ranking())) - i64::from(assertion.half());
    above_half * i64::from(group.count())
}

// Sets the margin of the record to 0, if it is live.
fn clear_margin(entered: &mut AssertionRecord)
    ensures { entered.new ≡ cleared entered.old }
{
    if entered.live {
        entered.margin = 0;
    }
}

// Sets the margin of each live record to 0.
fn clear_margins(records: &mut [AssertionRecord])
    ensures { records.new ≡ map cleared records.old }
{
    for entered in records.iter_mut() {
        clear_margin(entered);
    }
}

// Adds a group to the margin of the record, if it is live.
fn add_to_margin(entered: &mut AssertionRecord, group: &Group)
    requires bounded { Bounded entered.old.assertion }
    requires small { unsigned_abs (with_group (group_value group.now) entered.old).margin ≤ most_value }
    ensures { entered.new ≡ with_group (group_value group.now) entered.old }
{
    if entered.live {
        entered.margin += gain(&entered.assertion, group);
    }
}

// Adds a group to the margin of each live record.
fn add_group(records: &mut [AssertionRecord], group: &Group)
    requires { (s : Slate) × (all_fine s (map (with_group (group_value group.now)) records.old) ≡ true) }
    ensures { records.new ≡ map (with_group (group_value group.now)) records.old }
{
    for entered in records.iter_mut() {
        add_to_margin(entered, group);
    }
}

// Adds each group of the source, which is at its start, to margins that have none yet. The place is left at the end.
fn add_all<S: BallotSource>(records: &mut [AssertionRecord], source: &mut S)
    requires start { S.place source.old ≡ 0 }
    requires none_yet { records.old ≡ map cleared records.old }
    requires fine { all_fine (S.contest source.old) records.old ≡ true }
    ensures after { records.new ≡ map (retallied (S.contest source.old) (S.groups source.old)) records.old }
    ensures same { SameBallots S.contest S.groups source.old source.new }
{
    // A source is no iterator: its `next` may read a text again, and says by its own clauses what it hands out.
    while let Some(group) = source.next() {
        add_group(records, &group);
    }
}

// Takes up the margins of the live records on all ballots of the source, whose place is left at its end.
fn tally_all<S: BallotSource>(records: &mut [AssertionRecord], source: &mut S)
    requires { all_fine (S.contest source.old) records.old ≡ true }
    ensures after { records.new ≡ map (retallied (S.contest source.old) (S.groups source.old)) records.old }
    ensures same { SameBallots S.contest S.groups source.old source.new }
{
    clear_margins(records);
    source.rewind();
    add_all(records, source);
}

impl Dossier {
    // Reads the source from start to end and keeps how many ballots it has and the margin of each live assertion on them,
    // in place of those of an earlier tally. The source's place moves. A source of another number of candidates is
    // refused and stays as it was.
    pub fn tally<S: BallotSource>(&mut self, source: &mut S) -> Result<(), Refusal>
        ensures answer { Answers (tallies (S.contest source.old) (S.groups source.old)) (state self.old) result (state self.new) }
        ensures same { SameBallots S.contest S.groups source.old source.new }
        ensures refused_source { OnErr result (source.new ≡ source.old) }
    {
        if source.candidates() != self.contest.candidates() {
            return Err(Refusal::OtherContest);
        }
        tally_all(&mut self.records, source);
        self.ballots = source.ballots();
        self.go_on(StageEvent::Tallied);
        Ok(())
    }
}
