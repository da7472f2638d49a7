// Figures of small contests.
use crate::figures::{sample, share};

#[test]
fn figures_of_small_contests(rt: HostRuntime) {
    assert_eq!(rt; share(1, 300, 1300), 2307);
    let table = [
        (6000, 2, 300, 1300, 26),
        (6001, 2, 300, 1300, 27),
        (6000, 2, 200, 1300, 39),
        (6000, 2, 3, 13, 13),
    ];
    for (factor, top, margin, ballots, expected) in table {
        assert_eq!(rt; sample(factor, top, margin, ballots), expected);
    }
}
