// Contests from a fixed seed: the counter and the recount against all orders, tried one by one.
#![tactic(auto)]

mod brute;
mod random;

use anyhow::Context;
use ballot::contest::Contest;
use ballot::group::Group;
use ballot::lent::LentGroups;
use brute::{Backwards, Counts, MOST_CANDIDATES, counts_of};
use elimination::count::Count;
use elimination::counting::count_ballots;
use elimination::recount::recount;
use fixed_list::{FixedList, ListFull};
use random::Random;
use search::answer::Answer;
use std::alloc::Global;

const SEED: u64 = 20181120;

const CONTESTS: usize = 400;

const LIMIT: u64 = 100_000;

const TOO_MANY: &str = "an order has more than five candidates";

// Whether a contest's ballots have several counts, whether one of these elects another than the counter's winner, and
// whether counter and recount agree with all orders.
#[derive(Clone, Copy, Default)]
struct Finding {
    tied: bool,
    disputed: bool,
    agrees: bool,
}

// The order of a count, written backwards. By a loop, since a list in fixed memory may be full, and `push` says so.
fn order_of(count: &Count) -> Result<Backwards, ListFull> {
    let mut order: FixedList<u32, MOST_CANDIDATES> = FixedList::new();
    for step in count.steps() {
        order.push(step.out())?;
    }
    order.push(count.winner())?;
    Backwards::of(order.as_slice())
}

// Whether the answer of the recount is what all orders show.
fn is_answer(answer: Answer, counts: &Counts) -> Result<bool, ListFull> {
    match (answer, counts.another) {
        (Answer::NoSurvivor(_), None) => Ok(true),
        (Answer::Found(order, _), Some(another)) => {
            Ok(Backwards::of(order.as_slice())?.members() == another.members())
        }
        _ => Ok(false),
    }
}

// Counter and recount against all orders, on the ballots of one contest.
fn compare(groups: &[Group], contest: Contest) -> anyhow::Result<Finding> {
    let mut source = LentGroups::open(contest, groups)
        .ok()
        .context("the groups were refused")?;
    let count = count_ballots(&mut source);
    let order = order_of(&count).ok().context(TOO_MANY)?;
    let counts = counts_of(groups, contest.candidates(), &order)
        .ok()
        .context(TOO_MANY)?;
    let answer = recount(&mut source, count.winner(), LIMIT)
        .ok()
        .context("the winner was refused")?;
    let same_answer = is_answer(answer, &counts).ok().context(TOO_MANY)?;
    Ok(Finding {
        tied: counts.number > 1,
        disputed: counts.another.is_some(),
        agrees: same_answer && counts.has_given,
    })
}

// What each contest came to.
fn try_contests(heap: Global) -> anyhow::Result<FixedList<Finding, CONTESTS>> {
    let mut random = Random::new(SEED);
    let mut findings = FixedList::new();
    for _ in 0..CONTESTS {
        let contest = random.contest();
        let groups = random.groups(heap, contest)?;
        let finding = compare(groups.as_slice(), contest)?;
        findings
            .push(finding)
            .ok()
            .context("more contests than findings")?;
    }
    Ok(findings)
}

fn main(rt: HostRuntime) -> anyhow::Result<()> {
    let findings = try_contests(rt.alloc())?;
    let findings = findings.as_slice();
    println!(rt;
        "{} contests of 2 to 5 candidates, {} with several counts, {} in which another could win; {} disagreed",
        findings.len(),
        findings.iter().filter(|finding| finding.tied).count(),
        findings.iter().filter(|finding| finding.disputed).count(),
        findings.iter().filter(|finding| !finding.agrees).count()
    )?;
    Ok(())
}
