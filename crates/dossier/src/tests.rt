// What the crate does on examples: three candidates, of whom 1 won, and 1,300 ballots.
use crate::dossier::Dossier;
use crate::open_error::OpenError;
use assertion::assertion::Assertion;
use assertion::neb::Neb;
use assertion::nen::Nen;
use audit::verdict::Verdict;
use ballot::candidate_set::CandidateSet;
use ballot::contest::Contest;
use ballot::group::Group;
use ballot::lent::LentGroups;
use ballot::ranking::Ranking;
use ballot::refusal::Refusal;
use std::process::Abort;
use std::test::Fail;

const FACTOR: u32 = 6000;

const PAGE: &str =
    "winner=1\nballots=1300\nendings=8\nassertion=1,NEB,1,2\nmargin=300\nshare=2307\nsample=26\nassertion=2,NEN,1,3,1+3\nmargin=200\nshare=1538\nsample=39\ntotal=39\n";

// One call on a dossier. `TallyOther` reads a source in which candidate 2 is first on most ballots, and `TallyFour` one of
// four candidates.
#[derive(Clone, Copy)]
enum Move {
    Enter(Assertion),
    Withdraw(u32),
    Check(u64),
    Tally,
    TallyOther,
    TallyFour,
    Plan(usize),
    Margin(u32),
}

// What is replied to a move, as far as a table tells it: a refusal by its number.
#[derive(Clone, Copy, Debug, PartialEq, Eq)]
enum Reply {
    Done,
    Refused(u32),
    Rejected,
    Stopped,
}

fn neb(winner: u32, loser: u32) -> Assertion {
    Assertion::Neb(Neb { winner, loser })
}

// The set is made here, as in work_dossier: a call that took any numbers would have to say which it left out.
fn nen(winner: u32, loser: u32, standing: &[u32]) -> Assertion {
    let mut set = CandidateSet::new();
    for candidate in standing {
        set.insert(*candidate);
    }
    Assertion::Nen(Nen {
        winner,
        loser,
        standing: set,
    })
}

fn opened(outcome: Result<Dossier, OpenError>) -> Result<Reply, OpenError> {
    match outcome {
        Ok(_) => Ok(Reply::Done),
        Err(OpenError::Refused(refusal)) => Ok(Reply::Refused(refusal.number())),
        Err(OpenError::OutOfMemory) => Err(OpenError::OutOfMemory),
    }
}

fn done<T: Drop>(outcome: Result<T, Refusal>) -> Reply {
    match outcome {
        Ok(_) => Reply::Done,
        Err(refusal) => Reply::Refused(refusal.number()),
    }
}

fn judged(outcome: Result<Verdict, Refusal>) -> Reply {
    match outcome {
        Ok(Verdict::Accepted(_)) => Reply::Done,
        Ok(Verdict::Rejected(_, _)) => Reply::Rejected,
        Ok(Verdict::Stopped) => Reply::Stopped,
        Err(refusal) => Reply::Refused(refusal.number()),
    }
}

fn tallied(dossier: &mut Dossier, candidates: u32, counts: [u32; 3]) -> Result<Reply, Fail> {
    let contest = Contest::new(candidates)?;
    let groups = [
        Group::new(Ranking::new(contest, &[1, 2])?, counts[0])?,
        Group::new(Ranking::new(contest, &[2])?, counts[1])?,
        Group::new(Ranking::new(contest, &[3, 1])?, counts[2])?,
    ];
    let mut source = LentGroups::open(contest, &groups)?;
    Ok(done(dossier.tally(&mut source)))
}

fn planned(dossier: &Dossier, room: usize) -> Reply {
    let mut page = [0; 512];
    done(dossier.plan(&mut page[..room.min(512)]))
}

// The moves are data, and each has its own arguments and its own reply.
fn make(dossier: &mut Dossier, call: Move) -> Result<Reply, Fail> {
    match call {
        Move::Enter(assertion) => Ok(done(dossier.enter(assertion))),
        Move::Withdraw(number) => Ok(done(dossier.withdraw(number))),
        Move::Check(limit) => Ok(judged(dossier.check(limit))),
        Move::Tally => tallied(dossier, 3, [600, 300, 400]),
        Move::TallyOther => tallied(dossier, 3, [100, 900, 300]),
        Move::TallyFour => tallied(dossier, 4, [600, 300, 400]),
        Move::Plan(room) => Ok(planned(dossier, room)),
        Move::Margin(number) => Ok(done(dossier.margin(number))),
    }
}

// Makes the moves on a new dossier, and holds each reply to the one that is expected.
fn play(rt: &(impl Abort + AllocGlobal), ways: &str, moves: &[(Move, Reply)]) -> Result<(), Fail> {
    let mut dossier = Dossier::open(rt.alloc(), 3, 1, FACTOR)?;
    for (call, expected) in moves {
        assert_eq!(rt; make(&mut dossier, *call)?, *expected, "{ways}");
    }
    Ok(())
}

#[test]
fn numbers_of_an_opening(rt: HostRuntime) -> Result<(), Fail> {
    for (candidates, winner, factor, expected) in [
        (1, 9, 0, Reply::Refused(1)),
        (17, 1, 1, Reply::Refused(1)),
        (3, 0, 0, Reply::Refused(2)),
        (3, 4, 1, Reply::Refused(2)),
        (3, 1, 0, Reply::Refused(3)),
        (3, 1, 1_000_001, Reply::Refused(3)),
        (2, 2, 1, Reply::Done),
        (16, 16, 1_000_000, Reply::Done),
    ] {
        let outcome = Dossier::open(rt.alloc(), candidates, winner, factor);
        assert_eq!(rt; opened(outcome)?, expected);
    }
    Ok(())
}

#[test]
fn the_page(rt: HostRuntime) -> Result<(), Fail> {
    let mut dossier = Dossier::open(rt.alloc(), 3, 1, FACTOR)?;
    assert_eq!(rt; dossier.enter(neb(1, 2))?, 1);
    assert_eq!(rt; dossier.enter(nen(1, 3, &[1, 3]))?, 2);
    assert_eq!(rt; judged(dossier.check(8)), Reply::Done);
    assert_eq!(rt; tallied(&mut dossier, 3, [600, 300, 400])?, Reply::Done);
    assert_eq!(rt; dossier.margin(2)?, (200, 2));
    let mut page = [b'.'; 512];
    let len = dossier.plan(&mut page)?;
    assert!(rt; len < 512);
    assert_eq!(rt; &page[..len], PAGE.as_bytes());
    assert_eq!(rt; page[len], b'.', "the byte behind the page stays");
    Ok(())
}

#[test]
fn wrong_ways_to_a_plan(rt: HostRuntime) -> Result<(), Fail> {
    let hole = [
        (Move::Enter(neb(1, 2)), Reply::Done),
        (Move::Check(6), Reply::Stopped),
        (Move::Check(7), Reply::Rejected),
        (Move::Check(0), Reply::Refused(11)),
        (Move::Check(100_000_001), Reply::Refused(11)),
        (Move::Tally, Reply::Done),
        (Move::Plan(512), Reply::Refused(13)),
    ];
    play(&rt, "a list with a hole", &hole)?;
    let changed = [
        (Move::Enter(neb(1, 2)), Reply::Done),
        (Move::Enter(neb(1, 3)), Reply::Done),
        (Move::Check(8), Reply::Done),
        (Move::Plan(512), Reply::Refused(14)),
        (Move::Margin(1), Reply::Refused(14)),
        (Move::Tally, Reply::Done),
        (Move::Margin(3), Reply::Refused(7)),
        (Move::Plan(10), Reply::Refused(16)),
        (Move::Plan(512), Reply::Done),
        (Move::Enter(neb(1, 2)), Reply::Done),
        (Move::Plan(512), Reply::Refused(13)),
        (Move::Margin(1), Reply::Refused(14)),
        (Move::Check(100), Reply::Done),
        (Move::Plan(512), Reply::Refused(14)),
        (Move::Tally, Reply::Done),
        (Move::Withdraw(2), Reply::Done),
        (Move::Plan(512), Reply::Refused(13)),
        (Move::Withdraw(2), Reply::Refused(7)),
        (Move::Check(100), Reply::Rejected),
    ];
    play(&rt, "changed after a check and a tally", &changed)?;
    let other = [
        (Move::Enter(neb(1, 2)), Reply::Done),
        (Move::Enter(neb(1, 3)), Reply::Done),
        (Move::Check(8), Reply::Done),
        (Move::Tally, Reply::Done),
        (Move::TallyFour, Reply::Refused(12)),
        (Move::Plan(512), Reply::Done),
        (Move::TallyOther, Reply::Done),
        (Move::Plan(512), Reply::Refused(15)),
        (Move::Plan(0), Reply::Refused(15)),
        (Move::Check(7), Reply::Stopped),
        (Move::Tally, Reply::Done),
        (Move::Plan(512), Reply::Done),
    ];
    play(&rt, "other ballots", &other)
}

#[test]
fn at_most_256_are_ever_entered(rt: HostRuntime) -> Result<(), Fail> {
    let mut dossier = Dossier::open(rt.alloc(), 3, 1, FACTOR)?;
    assert_eq!(rt; done(dossier.enter(neb(1, 4))), Reply::Refused(4));
    for number in 1..=256 {
        assert_eq!(rt; dossier.enter(neb(1, 2))?, number);
        dossier.withdraw(number)?;
    }
    assert_eq!(rt;
        done(dossier.enter(neb(1, 4))),
        Reply::Refused(4),
        "an unfit one first"
    );
    assert_eq!(rt;
        done(dossier.enter(neb(1, 2))),
        Reply::Refused(6),
        "withdrawn numbers are not given again"
    );
    Ok(())
}
