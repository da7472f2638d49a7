// Works a dossier through its stages on the ballots of standard input, groups text of 6 candidates, and prints each
// call with its reply: ways to a plan that are refused, and the one that leads to the page.
#![tactic(auto)]

mod call;

use anyhow::Context;
use ballot::refusal::Refusal;
use ballot::source::BallotSource;
use ballot_text::{BallotText, GroupsText};
use call::{Call, Reply, SHORT_ROOM, Written};
use dossier::dossier::Dossier;
use std::io;
use std::io::{Read, Write};

// The page of this course has fewer bytes.
const PAGE_ROOM: usize = 1024;

const COURSE: &[Call] = &[
    // Nothing to plan for, and two assertions that do not fit.
    Call::Plan,
    Call::Enter(Written::Neb(2, 7)),
    Call::Enter(Written::Majority(2, 1, 3)),
    // When the ballots are counted, 6 goes out, then 5, then 3: whoever stays has more ballots.
    Call::Enter(Written::Nen(1, 6, &[1, 2, 3, 4, 5, 6])),
    Call::Enter(Written::Nen(2, 6, &[1, 2, 3, 4, 5, 6])),
    Call::Enter(Written::Nen(3, 6, &[1, 2, 3, 4, 5, 6])),
    Call::Enter(Written::Nen(4, 6, &[1, 2, 3, 4, 5, 6])),
    Call::Enter(Written::Nen(5, 6, &[1, 2, 3, 4, 5, 6])),
    Call::Enter(Written::Nen(1, 5, &[1, 2, 3, 4, 5])),
    Call::Enter(Written::Nen(2, 5, &[1, 2, 3, 4, 5])),
    Call::Enter(Written::Nen(3, 5, &[1, 2, 3, 4, 5])),
    Call::Enter(Written::Nen(4, 5, &[1, 2, 3, 4, 5])),
    Call::Enter(Written::Nen(1, 3, &[1, 2, 3, 4])),
    Call::Enter(Written::Nen(2, 3, &[1, 2, 3, 4])),
    Call::Enter(Written::Nen(4, 3, &[1, 2, 3, 4])),
    // Another can still win; the last two steps close that.
    Call::Check(1_000_000),
    Call::Enter(Written::Nen(2, 1, &[1, 2, 4])),
    Call::Enter(Written::Nen(4, 1, &[1, 2, 4])),
    Call::Enter(Written::Nen(2, 4, &[2, 4])),
    Call::Check(10),
    Call::Check(1_000_000),
    // No plan before the tally.
    Call::Plan,
    Call::Margin(15),
    Call::Tally,
    Call::Margin(15),
    // One more assertion, which does not hold on the ballots, bars the plan until it is withdrawn.
    Call::Enter(Written::Neb(2, 5)),
    Call::Plan,
    Call::Check(1_000_000),
    Call::Tally,
    Call::Margin(16),
    Call::Plan,
    Call::Withdraw(16),
    Call::Margin(16),
    Call::Plan,
    // Checked and tallied since the last change: the page, where there is room for it.
    Call::Check(1_000_000),
    Call::Plan,
    Call::Tally,
    Call::ShortPlan,
    Call::Plan,
];

// Plans into the page, and replies with what was written of it.
fn plan<'p>(dossier: &Dossier, page: &'p mut [u8]) -> Result<Reply<'p>, Refusal> {
    let length = dossier.plan(page)?;
    Ok(Reply::Page(&page[..length]))
}

// The calls of a course are data, and each has its own arguments and its own reply.
fn make<'p, S: BallotSource>(
    dossier: &mut Dossier,
    source: &mut S,
    page: &'p mut [u8; PAGE_ROOM],
    call: &Call,
) -> Result<Reply<'p>, Refusal> {
    match *call {
        Call::Enter(written) => Ok(Reply::Entered(dossier.enter(written.into())?)),
        Call::Withdraw(number) => {
            dossier.withdraw(number)?;
            Ok(Reply::Done)
        }
        Call::Check(limit) => Ok(Reply::Judged(dossier.check(limit)?)),
        Call::Tally => {
            dossier.tally(source)?;
            Ok(Reply::Done)
        }
        Call::Margin(number) => {
            let (margin, top) = dossier.margin(number)?;
            Ok(Reply::Margin(margin, top))
        }
        Call::Plan => plan(dossier, page),
        Call::ShortPlan => plan(dossier, &mut page[..SHORT_ROOM]),
    }
}

fn print_reply(rt: &impl Print, reply: &Reply<'_>) -> io::Result<()> {
    println!(rt; "{reply}")?;
    match reply {
        Reply::Page(page) => io::writer(rt).write_all(page),
        _ => Ok(()),
    }
}

// Makes each call of the course, and prints it with its reply.
fn work<S: BallotSource>(rt: &impl Print, dossier: &mut Dossier, source: &mut S) -> io::Result<()> {
    let mut page = [0; PAGE_ROOM];
    let mut refused = 0usize;
    for call in COURSE {
        print!(rt; "{call}: ")?;
        match make(dossier, source, &mut page, call) {
            Ok(reply) => print_reply(rt, &reply)?,
            Err(refusal) => {
                refused += 1;
                println!(rt; "refused={}, {refusal:?}", refusal.number())?;
            }
        }
    }
    println!(rt;
        "worked a dossier on {} ballots: {} calls, of which {refused} were refused",
        source.ballots(),
        COURSE.len()
    )
}

fn main(rt: HostRuntime) -> anyhow::Result<()> {
    let mut bytes = Vec::new(rt.alloc());
    rt.stdin().read_to_end(&mut bytes)?;
    let text = BallotText::new(bytes.as_slice());
    let mut source = GroupsText::open(6, &text)
        .ok()
        .context("standard input is no groups text of 6 candidates")?;
    let mut dossier = Dossier::open(rt.alloc(), 6, 2, 6000)
        .ok()
        .context("the dossier was not opened")?;
    println!(rt; "open candidates=6 winner=2 factor=6000: opened")?;
    work(&rt, &mut dossier, &mut source)?;
    Ok(())
}
