// What the crate does on examples.
use crate::candidate_set::CandidateSet;
use crate::contest::Contest;
use crate::group::Group;
use crate::lent::LentGroups;
use crate::ranking::Ranking;
use crate::refusal::Refusal;
use crate::source::BallotSource;
use std::test::Fail;

// The number of the refusal, if there is one.
fn refused<T: Drop>(res: Result<T, Refusal>) -> Option<u32> {
    res.err().map(|refusal| refusal.number())
}

#[test]
fn sets_hold_1_to_16(rt: HostRuntime) -> Result<(), Fail> {
    let all = Contest::new(16)?.everyone();
    for (candidate, fits) in [(0, false), (1, true), (16, true), (17, false)] {
        assert_eq!(rt; all.has(candidate), fits);
        let mut set = CandidateSet::new();
        assert_eq!(rt; set.has(candidate), false);
        assert_eq!(rt; set.insert(candidate), fits);
        assert_eq!(rt; set.has(candidate), fits);
        assert_eq!(rt; set.remove(candidate), fits);
        assert!(rt; set == CandidateSet::new());
    }
    Ok(())
}

#[test]
fn contests_have_2_to_16_candidates(rt: HostRuntime) {
    for (candidates, number) in [(1, Some(1)), (2, None), (16, None), (17, Some(1))] {
        assert_eq!(rt; refused(Contest::new(candidates)), number);
    }
}

#[test]
fn rankings_and_groups(rt: HostRuntime) -> Result<(), Fail> {
    let contest = Contest::new(3)?;
    assert_eq!(rt;
        refused(Ranking::new(contest, &[1, 3, 1])),
        Some(9),
        "repeated"
    );
    assert_eq!(rt; refused(Ranking::new(contest, &[1, 4])), Some(9), "foreign");
    assert_eq!(rt; refused(Ranking::new(contest, &[0])), Some(9), "zero");
    assert_eq!(rt; refused(Ranking::new(contest, &[])), None, "empty");
    let sixteen = Contest::new(16)?;
    let long = [1, 2, 3, 4, 5, 6, 7, 8, 9, 10, 11, 12, 13, 14, 15, 16, 1];
    assert_eq!(rt;
        refused(Ranking::new(sixteen, &long[0..16])),
        None,
        "16 entries"
    );
    assert_eq!(rt;
        refused(Ranking::new(sixteen, &long)),
        Some(9),
        "17 entries"
    );
    assert_eq!(rt;
        refused(Group::new(Ranking::new(contest, &[3, 1])?, 0)),
        Some(10)
    );
    Ok(())
}

#[test]
fn lent_groups(rt: HostRuntime) -> Result<(), Fail> {
    let contest = Contest::new(3)?;
    let a = Group::new(Ranking::new(contest, &[3, 1])?, 40_000_000)?;
    let b = Group::new(Ranking::new(contest, &[])?, 60_000_000)?;
    let one_more = Group::new(Ranking::new(contest, &[2])?, 1)?;
    let other = Group::new(Ranking::new(Contest::new(4)?, &[2])?, 1)?;
    assert_eq!(rt;
        refused(LentGroups::open(contest, &[a, b, one_more])),
        Some(10)
    );
    assert_eq!(rt;
        refused(LentGroups::open(contest, &[other, a, b])),
        Some(10)
    );
    assert_eq!(rt; refused(LentGroups::open(contest, &[a, other])), Some(12));
    let groups = [a, b];
    let mut source = LentGroups::open(contest, &groups)?;
    assert_eq!(rt; source.candidates(), 3);
    assert_eq!(rt; source.ballots(), 100_000_000);
    for count in [Some(40_000_000), Some(60_000_000), None, None] {
        assert_eq!(rt; source.next().map(|group| group.count()), count);
    }
    source.rewind();
    assert_eq!(rt; source.next().map(|group| group.count()), Some(40_000_000));
    Ok(())
}
