// An assertion of any kind.
ghost use Rattle.assertion.specs.Kinds.{written_kind, value_kind, top_kind, half_kind, rules_kind};
ghost use Rattle.assertion.specs.Sound.{any_kind_law};

use crate::assorter::Assorter;
use crate::cause::Cause;
use crate::majority::Majority;
use crate::neb::Neb;
use crate::nen::Nen;
use ballot::candidate_set::CandidateSet;
use ballot::contest::Contest;
use ballot::ranking::Ranking;

// An enum and no `dyn`, since the kinds are three, a dossier copies them, and its table holds them without boxes.
#[derive(Clone, Copy)]
pub enum Assertion {
    Neb(Neb),
    Nen(Nen),
    Majority(Majority),
}

impl Assorter for Assertion {
    ghost written = { written_kind };

    ghost value = { value_kind };

    ghost top = { top_kind };

    ghost half = { half_kind };

    ghost rules = { rules_kind };

    ghost sound = { any_kind_law };

    fn value(&self, ranking: &Ranking) -> u32 {
        match self {
            Assertion::Neb(a) => a.value(ranking),
            Assertion::Nen(a) => a.value(ranking),
            Assertion::Majority(a) => a.value(ranking),
        }
    }

    fn top(&self) -> u32 {
        match self {
            Assertion::Neb(a) => a.top(),
            Assertion::Nen(a) => a.top(),
            Assertion::Majority(a) => a.top(),
        }
    }

    fn half(&self) -> u32 {
        match self {
            Assertion::Neb(a) => a.half(),
            Assertion::Nen(a) => a.half(),
            Assertion::Majority(a) => a.half(),
        }
    }

    fn rules_out(&self, standing: CandidateSet, out: u32) -> bool {
        match self {
            Assertion::Neb(a) => a.rules_out(standing, out),
            Assertion::Nen(a) => a.rules_out(standing, out),
            Assertion::Majority(a) => a.rules_out(standing, out),
        }
    }

    fn judge(&self, contest: Contest) -> Result<(), Cause> {
        match self {
            Assertion::Neb(a) => a.judge(contest),
            Assertion::Nen(a) => a.judge(contest),
            Assertion::Majority(a) => a.judge(contest),
        }
    }
}
