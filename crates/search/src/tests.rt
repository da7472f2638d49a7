// Searches over two rules of three candidates, of whom 1 won.
ghost use Rattle.std.specs.Prelude.{◌≡◌};
ghost use Rattle.search.specs.Rules.{nothing_lent};
ghost use Rattle.search.specs.Samples.{three, nothing_out, nothing_out_sound, pair, trio, one_stays, one_stays_sound};

use crate::answer::Answer;
use crate::rule::Rule;
use crate::searching::find_survivor;
use ballot::candidate_set::CandidateSet;
use ballot::refusal::Refusal;

// Nothing is ruled out.
#[derive(Drop)]
struct NothingOut {}

impl Rule for NothingOut {
    ghost contest = { λ _. three };

    ghost ruling = { λ _. nothing_out };

    ghost sound = { λ _. nothing_out_sound };

    ghost kept = { λ _ _. Unit {0} };

    ghost chains = { nothing_lent };

    fn candidates(&self) -> u32 {
        3
    }

    fn rules_out(&mut self, _standing: CandidateSet, _out: u32) -> bool {
        false
    }
}

fn one_and_two() -> CandidateSet
    ensures { result ≡ pair }
{
    let mut set = CandidateSet::new();
    set.insert(1);
    set.insert(2);
    set
}

fn all_three() -> CandidateSet
    ensures { result ≡ trio }
{
    let mut set = one_and_two();
    set.insert(3);
    set
}

// It is ruled out that 1 goes out of a set that holds 2. A second type and not a value of the first, since what a rule rules
// out is a ghost member of its type.
#[derive(Drop)]
struct OneStays {}

impl Rule for OneStays {
    ghost contest = { λ _. three };

    ghost ruling = { λ _. one_stays };

    ghost sound = { λ _. one_stays_sound };

    ghost kept = { λ _ _. Unit {0} };

    ghost chains = { nothing_lent };

    fn candidates(&self) -> u32 {
        3
    }

    fn rules_out(&mut self, standing: CandidateSet, out: u32) -> bool {
        out == 1 && (standing == one_and_two() || standing == all_three())
    }
}

// Whether the answer is this order, first out first, after so many endings.
fn is_found(answer: Result<Answer, Refusal>, order: &[u32], tried: u64) -> bool {
    matches!(answer, Ok(Answer::Found(ending, total)) if total == tried && ending.as_slice() == order)
}

fn is_stopped(answer: Result<Answer, Refusal>) -> bool {
    matches!(answer, Ok(Answer::Stopped))
}

#[test]
fn finds_the_first_survivor(rt: HostRuntime) {
    assert!(rt; is_found(find_survivor(&mut NothingOut {}, 1, 3), &[3, 1, 2], 3));
    assert!(rt; is_found(find_survivor(&mut OneStays {}, 1, 7), &[2, 1, 3], 7));
    assert!(rt; is_stopped(find_survivor(&mut OneStays {}, 1, 6)));
}
