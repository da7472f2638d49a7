// What the crate does on examples.
use crate::assertion::Assertion;
use crate::assorter::Assorter;
use crate::majority::Majority;
use crate::neb::Neb;
use crate::tallying::tally;
use ballot::contest::Contest;
use ballot::group::Group;
use ballot::lent::LentGroups;
use ballot::ranking::Ranking;
use std::test::Fail;

#[test]
fn margins_and_what_holds(rt: HostRuntime) -> Result<(), Fail> {
    let contest = Contest::new(3)?;
    let groups = [
        Group::new(Ranking::new(contest, &[1, 2])?, 600)?,
        Group::new(Ranking::new(contest, &[2])?, 300)?,
        Group::new(Ranking::new(contest, &[3, 1])?, 400)?,
    ];
    let mut source = LentGroups::open(contest, &groups)?;
    let first = tally(
        &Neb {
            winner: 1,
            loser: 3,
        },
        &mut source,
    )?;
    assert_eq!(rt; first.margin, 200);
    assert_eq!(rt; first.sum, 1500);
    assert_eq!(rt; first.holds(), true);
    let turned = tally(
        &Assertion::Neb(Neb {
            winner: 2,
            loser: 1,
        }),
        &mut source,
    )?;
    assert_eq!(rt; turned.margin, -700);
    assert_eq!(rt; turned.holds(), false);
    let half = Majority {
        winner: 1,
        part: 1,
        whole: 2,
    };
    assert_eq!(rt; tally(&half, &mut source)?.margin, -100);
    let few = [
        Group::new(Ranking::new(contest, &[1])?, 1)?,
        Group::new(Ranking::new(contest, &[2])?, 1)?,
        Group::new(Ranking::new(contest, &[])?, 5)?,
    ];
    let mut blanks = LentGroups::open(contest, &few)?;
    let tied = tally(&half, &mut blanks)?;
    assert_eq!(rt; tied.margin, 0);
    assert_eq!(rt; tied.holds(), false);
    let third = Majority {
        winner: 1,
        part: 1,
        whole: 3,
    };
    let refused = tally(&third, &mut blanks);
    assert_eq!(rt; refused.err().map(|refusal| refusal.number()), Some(5));
    Ok(())
}
