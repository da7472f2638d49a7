// A group off the front of a text, judged by its form, its count and its candidates, in this order.
ghost use Rattle.std.specs.Prelude.{◌≡◌, ◌+◌, ◌^◌, ◌<◌, ◌≤◌, length, decimal, sum_by, MatchResult};
ghost use Rattle.ballot.specs.Values.{contest_slate};
ghost use Rattle.ballot_line.specs.Forms.{form_of};
ghost use Rattle.ballot_line.specs.Faults.{RightNumbers, WrongNumber, TakesGroup, FaultyLine};

use crate::form::TextForm;
use crate::line::read_line;
use ballot::contest::Contest;
use ballot::group::Group;
use ballot::ranking::Ranking;
use ballot::refusal::Refusal;
use ballot::source::MOST_BALLOTS;

// A group, and how many bytes its line has with its end.
#[derive(Clone, Copy)]
pub struct GroupRead {
    pub group: Group,
    pub length: usize,
}

// Why a line is refused, and at which of its bytes, from 1.
#[derive(Clone, Copy, Debug, PartialEq, Eq)]
pub struct LineFault {
    pub cause: Refusal,
    pub byte: usize,
}

// How many digits the number is written with.
fn digits(number: u32) -> usize
    ensures value { result ≡ length (decimal number) }
    ensures few { result ≤ 10 }
{
    // A cast, since `usize` has no `From<u32>`.
    number.max(1).ilog10() as usize + 1
}

// How many bytes the numbers take, each with the comma behind it.
fn bytes_of(numbers: &[u32]) -> usize
    requires { length numbers.now ≤ 16 }
    ensures { result ≡ sum_by (λ v. length (decimal v) + 1) numbers.now }
{
    numbers.iter().map(|number| digits(*number) + 1).sum()
}

// The ranking of these numbers, or the first that is foreign or comes again, at its first digit behind a
// first field of `head` bytes.
fn ranking_of(contest: Contest, head: usize, numbers: &[u32]) -> Result<Ranking, LineFault>
    requires { (head < 2 ^ 63) × (length numbers.now ≤ 16) }
    ensures { MatchResult result (λ k. RightNumbers (contest_slate contest) numbers.now k) (λ e. WrongNumber (contest_slate contest) head numbers.now e) }
{
    match contest.first_unfit(numbers) {
        None => Ok(Ranking::new(contest, numbers).unwrap()),
        Some(place) => Err(LineFault {
            cause: Refusal::CandidateForeignOrRepeated,
            byte: head + 2 + bytes_of(&numbers[..place]),
        }),
    }
}

// The group of the line in front of `left`, with `sum` ballots before it, or why the line is refused. The form and the
// contest come apart, since a line is read by the one and its ranking judged by the other.
pub fn take_group(
    form: TextForm,
    contest: Contest,
    sum: u32,
    left: &[u8],
) -> Result<GroupRead, LineFault>
    ensures { MatchResult result (λ g. TakesGroup (form_of form) (contest_slate contest) sum left.now g) (λ e. FaultyLine (form_of form) (contest_slate contest) sum left.now e) }
{
    let line = read_line(form, left).map_err(|at| LineFault {
        cause: Refusal::Malformed,
        byte: at + 1,
    })?;
    if !(1..=MOST_BALLOTS.saturating_sub(sum)).contains(&line.count) {
        return Err(LineFault {
            cause: Refusal::CountOutOfRange,
            byte: 1,
        });
    }
    let head = line.first.bytes().len();
    let ranking = ranking_of(contest, head, line.numbers.as_slice())?;
    Ok(GroupRead {
        group: Group::new(ranking, line.count).unwrap(),
        length: line.length,
    })
}
