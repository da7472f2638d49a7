// Tallying an assertion over the ballots of a source.
ghost use Rattle.std.specs.Prelude.{◌≡◌, ℕ, ◌*◌, ◌≤◌, List, pos, ◌-ℤ◌, ◌<ℤ◌, IfOk, None, MatchResult};
ghost use Rattle.irv.specs.Orders.{CountOf};
ghost use Rattle.irv.specs.Endings.{Stands};
ghost use Rattle.irv.specs.Assertions.{judged, value_sum, margin as margin_of};
ghost use Rattle.ballot.specs.Sources.{SameBallots};
ghost use Rattle.assertion.specs.Causes.{Refused};
ghost use Rattle.assertion.specs.Sums.{most_value};

use crate::assorter::Assorter;
use crate::tallied::Tallied;
use ballot::refusal::Refusal;
use ballot::source::BallotSource;
use ballot::walk::contest_of;

// Adds up the values of the ballots from the source's place on; from the start that is all of them.
fn sum_rest<A: Assorter, S: BallotSource>(assertion: &A, source: &mut S) -> u64
    requires { judged (S.contest source.old) (A.written assertion.now) ≡ None }
    ensures same { SameBallots S.contest S.groups source.old source.new }
    ensures sum { S.place source.old ≡ 0 → result ≡ value_sum (A.value assertion.now) (S.contest source.old) (S.groups source.old) }
    ensures small { result ≤ most_value }
{
    // A source is no iterator: its `next` may read a text again, and says by its own clauses what it hands out.
    let mut sum: u64 = 0;
    while let Some(group) = source.next() {
        sum += u64::from(assertion.value(&group.ranking())) * u64::from(group.count());
    }
    sum
}

// The values of all ballots. The source's place moves.
fn sum_all<A: Assorter, S: BallotSource>(assertion: &A, source: &mut S) -> u64
    requires { judged (S.contest source.old) (A.written assertion.now) ≡ None }
    ensures same { SameBallots S.contest S.groups source.old source.new }
    ensures sum { result ≡ value_sum (A.value assertion.now) (S.contest source.old) (S.groups source.old) }
    ensures small { result ≤ most_value }
{
    source.rewind();
    sum_rest(assertion, source)
}

// By how much `sum` passes `half` for each of the ballots.
fn passed_by(sum: u64, half: u32, ballots: u32) -> i64
    requires { (sum ≤ most_value) × (half * ballots ≤ most_value) }
    ensures { result ≡ pos sum -ℤ pos (half * ballots) }
{
    sum.checked_signed_diff(u64::from(half) * u64::from(ballots))
        .unwrap()
}

// Adds up what the assertion is worth on all ballots of the source, whose place moves. An assertion that does
// not fit the contest is refused, and the source stays as it was. Where the margin is above 0, no count of
// the ballots has a step that the assertion rules out.
pub fn tally<A: Assorter, S: BallotSource>(
    assertion: &A,
    source: &mut S,
) -> Result<Tallied, Refusal>
    ensures same { SameBallots S.contest S.groups source.old source.new }
    ensures outcome { MatchResult result (λ t. (judged (S.contest source.old) (A.written assertion.now) ≡ None) × ((t.sum ≡ value_sum (A.value assertion.now) (S.contest source.old) (S.groups source.old)) × (t.margin ≡ margin_of (A.value assertion.now) (A.half assertion.now) (S.contest source.old) (S.groups source.old)))) (λ e. Refused (judged (S.contest source.old) (A.written assertion.now)) e × (source.new ≡ source.old)) }
    ensures rightly { IfOk result (λ t. pos 0 <ℤ t.margin → (o : List ℕ) → CountOf (S.contest source.old) (S.groups source.old) o → Stands (A.rules assertion.now) o) }
{
    assertion.judge(contest_of(source))?;
    let sum = sum_all(assertion, source);
    let margin = passed_by(sum, assertion.half(), source.ballots());
    Ok(Tallied { sum, margin })
}
