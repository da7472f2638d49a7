// Sets of candidates.
ghost use Rattle.std.specs.Prelude.{◌≡◌, if◌then◌else◌};
ghost use Rattle.irv.specs.Sets.{empty, has, with, within};
ghost use Rattle.ballot.specs.Sets.{in_range, Removed};

use std::marker::Model;

// Who is in the set: candidate c, from 1 to 16, where bit c - 1 is set. Each set has one value.
#[derive(Clone, Copy, PartialEq, Eq)]
pub struct CandidateSet {
    bits: u16,
}

// Contracts see the set itself.
impl Model for CandidateSet {
    ghost use Rattle.std.specs.Prelude.{◌<◌, ◌^◌};
    ghost use Rattle.irv.specs.Sets.{Set};

    ghost Value = { Set };

    ghost view = { λ s. s.bits };

    ghost invariant = { λ s. s.bits < 2 ^ 16 };

    ghost inverse = { λ set. record { bits = set } };
}

impl CandidateSet {
    // The set with nobody in it.
    pub fn new() -> CandidateSet
        ensures { result ≡ empty }
    {
        CandidateSet { bits: 0 }
    }

    // Whether `candidate` is in the set; a number outside 1 to 16 is in no set.
    pub fn has(&self, candidate: u32) -> bool
        ensures { result ≡ has self.now candidate }
    {
        match candidate {
            1..=16 => (self.bits >> (candidate - 1)) & 1 == 1,
            _ => false,
        }
    }

    // Whether everybody in the set is in `other` too.
    pub fn within(&self, other: &CandidateSet) -> bool
        ensures { result ≡ within self.now other.now }
    {
        self.bits | other.bits == other.bits
    }

    // Puts `candidate` in; false, and nothing changed, where it is outside 1 to 16.
    pub fn insert(&mut self, candidate: u32) -> bool
        ensures value { result ≡ in_range candidate }
        ensures after { self.new ≡ (if result then with candidate self.old else self.old) }
    {
        match candidate {
            1..=16 => {
                self.bits |= 1 << (candidate - 1);
                true
            }
            _ => false,
        }
    }

    // Takes `candidate` out; false, and nothing changed, where it was not in.
    pub fn remove(&mut self, candidate: u32) -> bool
        ensures value { result ≡ has self.old candidate }
        ensures after { Removed result candidate self.old self.new }
    {
        match candidate {
            1..=16 => {
                if !self.has(candidate) {
                    return false;
                }
                self.bits ^= 1 << (candidate - 1);
                true
            }
            _ => false,
        }
    }
}
