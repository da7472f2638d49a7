// Calls on a dossier, and what they reply.
use assertion::assertion::Assertion;
use assertion::majority::Majority;
use assertion::neb::Neb;
use assertion::nen::Nen;
use audit::verdict::Verdict;
use ballot::candidate_set::CandidateSet;
use joined::Joined;
use std::fmt;

// An assertion as it is written: its kind and its numbers. A type beside `Assertion`, which holds a set and has no form in
// which a course could be written as a constant.
#[derive(Clone, Copy)]
pub enum Written {
    Neb(u32, u32),
    Nen(u32, u32, &'static [u32]),
    Majority(u32, u32, u32),
}

// The room of a short plan, in bytes.
pub const SHORT_ROOM: usize = 64;

// A call on a dossier; a short plan has less room than the page needs.
#[derive(Clone, Copy)]
pub enum Call {
    Enter(Written),
    Withdraw(u32),
    Check(u64),
    Tally,
    Margin(u32),
    Plan,
    ShortPlan,
}

// What a call that is not refused replies.
#[derive(Clone, Copy)]
pub enum Reply<'p> {
    Entered(u32),
    Done,
    Judged(Verdict),
    Margin(i64, u32),
    Page(&'p [u8]),
}

// The set of those of the numbers that a set has room for; `insert` says which, and the course has no others.
fn set_of(numbers: &[u32]) -> CandidateSet {
    let mut set = CandidateSet::new();
    for number in numbers {
        set.insert(*number);
    }
    set
}

impl From<Written> for Assertion {
    fn from(written: Written) -> Assertion {
        match written {
            Written::Neb(winner, loser) => Assertion::Neb(Neb { winner, loser }),
            Written::Nen(winner, loser, standing) => Assertion::Nen(Nen {
                winner,
                loser,
                standing: set_of(standing),
            }),
            Written::Majority(winner, part, whole) => Assertion::Majority(Majority {
                winner,
                part,
                whole,
            }),
        }
    }
}

impl fmt::Display for Written {
    fn fmt<W: fmt::Write>(&self, f: &mut fmt::Formatter<W>) -> fmt::Result {
        match self {
            Written::Neb(winner, loser) => write!(f, "NEB,{winner},{loser}"),
            Written::Nen(winner, loser, standing) => {
                write!(f, "NEN,{winner},{loser},{}", Joined(standing, "+"))
            }
            Written::Majority(winner, part, whole) => write!(f, "MAJ,{winner},{part},{whole}"),
        }
    }
}

impl fmt::Display for Call {
    fn fmt<W: fmt::Write>(&self, f: &mut fmt::Formatter<W>) -> fmt::Result {
        match self {
            Call::Enter(assertion) => write!(f, "enter {assertion}"),
            Call::Withdraw(number) => write!(f, "withdraw {number}"),
            Call::Check(limit) => write!(f, "check limit={limit}"),
            Call::Tally => write!(f, "tally"),
            Call::Margin(number) => write!(f, "margin {number}"),
            Call::Plan => write!(f, "plan"),
            Call::ShortPlan => write!(f, "plan into {SHORT_ROOM} bytes"),
        }
    }
}

impl fmt::Display for Reply<'_> {
    fn fmt<W: fmt::Write>(&self, f: &mut fmt::Formatter<W>) -> fmt::Result {
        match self {
            Reply::Entered(number) => write!(f, "number={number}"),
            Reply::Done => write!(f, "done"),
            Reply::Judged(Verdict::Accepted(tried)) => write!(f, "accepted, {tried} endings tried"),
            Reply::Judged(Verdict::Rejected(order, tried)) => write!(
                f,
                "rejected, order={} survives, {tried} endings tried",
                Joined(order.as_slice(), ",")
            ),
            Reply::Judged(Verdict::Stopped) => write!(f, "stopped"),
            Reply::Margin(margin, top) => write!(f, "margin={margin} top={top}"),
            Reply::Page(page) => write!(f, "a page of {} bytes", page.len()),
        }
    }
}
