// Counts and recounts of small contests.
use crate::counting::count_ballots;
use crate::recount::recount;
use ballot::contest::Contest;
use ballot::group::Group;
use ballot::lent::LentGroups;
use ballot::ranking::Ranking;
use ballot::refusal::Refusal;
use search::answer::Answer;
use std::test::Fail;

fn group(contest: Contest, count: u32, candidates: &[u32]) -> Result<Group, Refusal> {
    Group::new(Ranking::new(contest, candidates)?, count)
}

// Whether the answer is this order, first out first, after so many endings. As in the tests of search, which a crate above
// cannot use.
fn is_found(answer: Answer, order: &[u32], tried: u64) -> bool {
    matches!(answer, Answer::Found(ending, total) if total == tried && ending.as_slice() == order)
}

fn is_none(answer: Answer, tried: u64) -> bool {
    matches!(answer, Answer::NoSurvivor(total) if total == tried)
}

#[test]
fn every_count_elects_the_first(rt: HostRuntime) -> Result<(), Fail> {
    let contest = Contest::new(3)?;
    let groups = [
        group(contest, 600, &[1, 2])?,
        group(contest, 300, &[2])?,
        group(contest, 400, &[3, 1])?,
    ];
    let mut source = LentGroups::open(contest, &groups)?;
    let count = count_ballots(&mut source);
    let steps = count.steps();
    assert!(rt; steps.len() == 2);
    assert_eq!(rt; steps[0].out(), 2);
    assert_eq!(rt; steps[0].tally(1), 600);
    assert_eq!(rt; steps[1].out(), 3);
    assert_eq!(rt; steps[1].tally(2), 0);
    assert_eq!(rt; count.winner(), 1);
    assert!(rt; is_none(recount(&mut source, 1, 7)?, 7));
    assert!(rt; recount(&mut source, 4, 7).is_err());
    Ok(())
}

#[test]
fn a_tie_can_elect_either(rt: HostRuntime) -> Result<(), Fail> {
    let contest = Contest::new(2)?;
    let groups = [group(contest, 1, &[1])?, group(contest, 1, &[2])?];
    let mut source = LentGroups::open(contest, &groups)?;
    assert!(rt; is_found(recount(&mut source, 1, 2)?, &[1, 2], 2));
    Ok(())
}
