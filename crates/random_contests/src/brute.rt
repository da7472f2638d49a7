// All orders of a contest, tried one after the other on its ballots, with nothing taken from the library's counter.
use ballot::group::Group;
use fixed_list::{FixedList, ListFull};

// The most candidates of a contest here.
pub const MOST_CANDIDATES: usize = 5;

// As many orders as five candidates have: a bound by which the walk over them is seen to end.
const MOST_ORDERS: u32 = 120;

// An order as it is written backwards: the winner, then the one who went out last, and so on. In fixed memory, so that
// trying all orders wants none. By a loop, since a list in fixed memory may be full, and `push` says so.
#[derive(Clone, Copy)]
pub struct Backwards(FixedList<u32, MOST_CANDIDATES>);

impl Backwards {
    // The order whose members are given first out first.
    pub fn of(order: &[u32]) -> Result<Backwards, ListFull> {
        let mut members = FixedList::new();
        for member in order.iter().rev() {
            members.push(*member)?;
        }
        Ok(Backwards(members))
    }

    // The first of all orders of so many candidates.
    fn first(candidates: u32) -> Result<Backwards, ListFull> {
        let mut members = FixedList::new();
        for candidate in 1..=candidates {
            members.push(candidate)?;
        }
        Ok(Backwards(members))
    }

    pub fn members(&self) -> &[u32] {
        self.0.as_slice()
    }

    // The next in ascending order, if there is one.
    fn next(&self) -> Result<Option<Backwards>, ListFull> {
        let members = self.members();
        let Some(low) = members.windows(2).rposition(|pair| pair[0] < pair[1]) else {
            return Ok(None);
        };
        let Some(high) = members.iter().rposition(|member| *member > members[low]) else {
            return Ok(None);
        };
        let mut next = FixedList::new();
        for member in &members[..low] {
            next.push(*member)?;
        }
        next.push(members[high])?;
        for (place, member) in members.iter().enumerate().skip(low + 1).rev() {
            next.push(if place == high { members[low] } else { *member })?;
        }
        Ok(Some(Backwards(next)))
    }

    // Whether nobody goes out who has more ballots than another who stands.
    fn is_count(&self, groups: &[Group]) -> bool {
        let members = self.members();
        (2..=members.len()).all(|standing| last_goes_out(groups, &members[..standing]))
    }
}

// Whom the ballots of the group belong to while these stand, if anybody.
fn owner(group: &Group, standing: &[u32]) -> Option<u32> {
    let ranking = group.ranking();
    ranking
        .as_slice()
        .iter()
        .copied()
        .find(|candidate| standing.contains(candidate))
}

// How many ballots belong to `candidate` while these stand.
fn pile(groups: &[Group], standing: &[u32], candidate: u32) -> u64 {
    groups
        .iter()
        .filter(|group| owner(group, standing) == Some(candidate))
        .map(|group| u64::from(group.count()))
        .fold(0, u64::saturating_add)
}

// Whether none of those who stand has fewer ballots than the last of them.
fn last_goes_out(groups: &[Group], standing: &[u32]) -> bool {
    let Some((out, others)) = standing.split_last() else {
        return true;
    };
    let fewest = pile(groups, standing, *out);
    others
        .iter()
        .all(|other| fewest <= pile(groups, standing, *other))
}

// What all orders of a contest come to: how many of them are counts of the ballots, the first of these, in ascending
// order, that elects another than a given order does, and whether the given order is one.
#[derive(Clone, Copy)]
pub struct Counts {
    pub number: u32,
    pub another: Option<Backwards>,
    pub has_given: bool,
}

impl Counts {
    // With one count more.
    fn with(self, order: Backwards, given: &Backwards) -> Counts {
        let elects_another = order.members().first() != given.members().first();
        Counts {
            number: self.number.saturating_add(1),
            another: match self.another {
                None if elects_another => Some(order),
                another => another,
            },
            has_given: self.has_given || order.members() == given.members(),
        }
    }
}

// The counts among all orders of a contest of at most five candidates, with regard to the order `given`.
pub fn counts_of(groups: &[Group], candidates: u32, given: &Backwards) -> Result<Counts, ListFull> {
    let mut counts = Counts {
        number: 0,
        another: None,
        has_given: false,
    };
    let mut order = Backwards::first(candidates)?;
    for _ in 0..MOST_ORDERS {
        if order.is_count(groups) {
            counts = counts.with(order, given);
        }
        let Some(next) = order.next()? else {
            break;
        };
        order = next;
    }
    Ok(counts)
}
