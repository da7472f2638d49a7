// count_ballots CANDIDATES rows|groups: counts the ballots on standard input once, step by step, and says whether any
// other count of them elects another.
#![tactic(auto)]

use anyhow::Context;
use ballot::source::BallotSource;
use ballot::walk::groups_in;
use ballot_line::TextForm;
use ballot_text::{BallotText, Fault, GroupsText, RowsText};
use elimination::count::Count;
use elimination::count_step::CountStep;
use elimination::counting::count_ballots;
use elimination::recount::recount;
use joined::Joined;
use search::answer::Answer;
use std::env::Args;
use std::io::Read;
use std::{env, fmt, io};

// How many endings the recount may try.
const RECOUNT_LIMIT: u64 = 1_000_000;

const USAGE: &str =
    "usage: count_ballots CANDIDATES rows|groups, with the ballots on standard input";

// What the caller asks for.
#[derive(Clone, Copy)]
struct Request {
    candidates: u32,
    form: TextForm,
}

// What the arguments ask for; the first is the program's name. An `Option`, since the usage answers whatever is wrong.
fn request_in(mut args: Args) -> Option<Request> {
    let candidates = args.nth(1)?.as_str().parse().ok()?;
    let form = args.next()?.as_str().parse().ok()?;
    Some(Request { candidates, form })
}

// The tallies of a step, as they are printed: those of candidates 1, 2 and so on up to `candidates`. Printed one after the
// other, so that a count that was begun wants no memory.
#[derive(Clone, Copy)]
struct StepTallies<'c> {
    step: &'c CountStep,
    candidates: u32,
}

impl fmt::Display for StepTallies<'_> {
    fn fmt<W: fmt::Write>(&self, f: &mut fmt::Formatter<W>) -> fmt::Result {
        write!(f, "{}", self.step.tally(1))?;
        for candidate in 2..=self.candidates {
            write!(f, ",{}", self.step.tally(candidate))?;
        }
        Ok(())
    }
}

// All candidates as they go out, the winner last.
#[derive(Clone, Copy)]
struct CountOrder<'c>(&'c Count);

impl fmt::Display for CountOrder<'_> {
    fn fmt<W: fmt::Write>(&self, f: &mut fmt::Formatter<W>) -> fmt::Result {
        for step in self.0.steps() {
            write!(f, "{},", step.out())?;
        }
        write!(f, "{}", self.0.winner())
    }
}

// One step: its tallies, and who goes out.
fn print_step(rt: &impl Print, number: usize, step: &CountStep, candidates: u32) -> io::Result<()> {
    println!(rt;
        "step={number} tallies={} out={}",
        StepTallies { step, candidates },
        step.out()
    )
}

// Whether every count elects the winner, or the first that elects another.
fn print_recount<S: BallotSource>(rt: &impl Print, source: &mut S, winner: u32) -> io::Result<()> {
    match recount(source, winner, RECOUNT_LIMIT) {
        Ok(Answer::NoSurvivor(tried)) => println!(rt;
            "recount: every count elects {winner}, ties broken in any manner; {tried} endings tried"
        ),
        Ok(Answer::Found(order, tried)) => println!(rt;
            "recount: another count does not elect {winner}, order={}; {tried} endings tried",
            Joined(order.as_slice(), ",")
        ),
        Ok(Answer::Stopped) => {
            println!(rt; "recount: stopped at its limit of {RECOUNT_LIMIT} endings")
        }
        Err(refusal) => println!(rt; "recount: refused={}", refusal.number()),
    }
}

fn print_count<S: BallotSource>(rt: &impl Print, source: &mut S, form: TextForm) -> io::Result<()> {
    let groups = groups_in(source);
    let count = count_ballots(source);
    let steps = count.steps();
    for (step, number) in steps.iter().zip(1usize..) {
        print_step(rt, number, step, source.candidates())?;
    }
    println!(rt; "order={}", CountOrder(&count))?;
    let winner = count.winner();
    println!(rt; "winner={winner}")?;
    print_recount(rt, source, winner)?;
    println!(rt;
        "read {} ballots in {groups} groups of {form} text, counted {} steps",
        source.ballots(),
        steps.len()
    )
}

// The count of the ballots of a text, or the fault for which it was not opened.
fn print_opened<S: BallotSource + Drop>(
    rt: &impl Print,
    opened: Result<S, Fault>,
    form: TextForm,
) -> io::Result<()> {
    match opened {
        Ok(mut source) => print_count(rt, &mut source, form),
        Err(Fault { cause, line, byte }) => {
            println!(rt; "refused={}\nline={line}\nbyte={byte}", cause.number())
        }
    }
}

fn main(rt: HostRuntime) -> anyhow::Result<()> {
    let Request { candidates, form } = request_in(env::args(&rt)?).context(USAGE)?;
    let mut bytes = Vec::new(rt.alloc());
    rt.stdin().read_to_end(&mut bytes)?;
    let text = BallotText::new(bytes.as_slice());
    // Matched here, since the form is a value of the arguments and part of the type of a source.
    match form {
        TextForm::Rows => print_opened(&rt, RowsText::open(candidates, &text), form)?,
        TextForm::Groups => print_opened(&rt, GroupsText::open(candidates, &text), form)?,
    }
    Ok(())
}
