// An ending: the last part of an order of elimination.
ghost use Rattle.std.specs.Prelude.{◌≡◌, ◌-◌, ◌≤◌, drop};
ghost use Rattle.irv.specs.Sets.{set_of};

use ballot::candidate_set::CandidateSet;

// The last `len` slots hold the members, first out first, and `set` says who they are.
// An array and its length, since each new member stands in front of those before, and a `FixedList` grows at its end.
#[derive(Clone, Copy)]
pub struct Ending {
    slots: [u32; 16],
    len: usize,
    set: CandidateSet,
    ghost room: { len ≤ 16 },
    ghost same: { set ≡ set_of (drop (16 - len) slots) },
}

impl Ending {
    ghost use Rattle.std.specs.Prelude.{◌<◌, [], ◌∷◌, length};
    ghost use Rattle.irv.specs.Walks.{may_join};
    ghost use Rattle.search.specs.EndingValues.{listing};

    // The ending that has no member yet.
    pub(crate) fn empty() -> Ending
        ensures { listing result ≡ [] }
    {
        Ending {
            slots: [0; 16],
            len: 0,
            set: CandidateSet::new(),
        }
    }

    // How many members the ending has.
    pub(crate) fn len(&self) -> usize
        ensures { result ≡ length (listing self.now) }
    {
        self.len
    }

    // Who is in the ending.
    pub(crate) fn members(&self) -> CandidateSet
        ensures { result ≡ set_of (listing self.now) }
    {
        self.set
    }

    // The members, first out first.
    pub fn as_slice(&self) -> &[u32]
        ensures { result.now ≡ listing self.now }
    {
        &self.slots[16 - self.len..]
    }

    // Whether `candidate` may be the next newer member: it is new, and as the last of all it is not the winner.
    pub(crate) fn may_grow_by(&self, winner: u32, candidate: u32) -> bool
        requires { 1 ≤ candidate }
        ensures { result ≡ may_join winner (listing self.now) candidate }
    {
        if self.len == 0 {
            candidate != winner
        } else {
            !self.set.has(candidate)
        }
    }

    // The ending with `candidate` as its newest member. The bounds of `candidate` are required here and are no type's,
    // since callers and texts name a candidate by its bare number.
    pub(crate) fn grown_by(mut self, candidate: u32) -> Ending
        requires { (length (listing self) < 16) × ((1 ≤ candidate) × (candidate ≤ 16)) }
        ensures { listing result ≡ candidate ∷ listing self }
    {
        self.slots[15 - self.len] = candidate;
        self.len += 1;
        self.set.insert(candidate);
        self
    }
}
