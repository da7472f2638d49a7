// Searching for the first order that a rule does not contradict.
ghost use Rattle.std.specs.Prelude.{◌≡◌, ◌+◌, ◌<◌, ◌≤◌, true, false, length, MatchResult};
ghost use Rattle.irv.specs.Ballots.{member};
ghost use Rattle.irv.specs.Endings.{SearchLaws};
ghost use Rattle.irv.specs.Walks.{run_below};
ghost use Rattle.ballot.specs.declared.refusal.Refusal.TheVariants.{WinnerNotCandidate};
ghost use Rattle.search.specs.EndingValues.{listing};
ghost use Rattle.search.specs.Rules.{SameRule};
ghost use Rattle.search.specs.Searches.{run_of, run_with, Searched, SameSearch};

use crate::answer::Answer;
use crate::ending::Ending;
use crate::rule::Rule;
use ballot::contest::Contest;
use ballot::refusal::Refusal;

// One more ending would be one too many.
#[derive(Clone, Copy)]
struct LimitReached;

// A search that has tried `tried` endings of at most `limit`.
#[derive(Drop)]
struct Search<'r, R> {
    rule: &'r mut R,
    winner: u32,
    limit: u64,
    tried: u64,
}

impl<'r, R: Rule> Search<'r, R> {
    // Counts one more ending as tried, if the limit leaves room for it.
    fn count_one(&mut self) -> Result<(), LimitReached>
        ensures { MatchResult result (λ _. (self.old.tried < self.old.limit) × (self.new ≡ record self.old { tried = self.old.tried + 1 })) (λ _. (self.old.limit ≤ self.old.tried) × (self.new ≡ self.old)) }
    {
        if self.tried >= self.limit {
            return Err(LimitReached);
        }
        self.tried += 1;
        Ok(())
    }

    // The survivor among the endings that grow from `ending`, which are tried one candidate after the other in
    // ascending order.
    fn below(&mut self, ending: Ending) -> Result<Option<Ending>, LimitReached>
        requires { length (listing ending) < (R.contest self.old.rule.now).candidates }
        ensures leads { run_with self.new.tried result ≡ run_below (R.ruling self.old.rule.now) self.old.winner (R.contest self.old.rule.now).candidates self.old.limit (listing ending) self.old.tried }
        ensures same { SameSearch R.contest R.ruling R.kept self.old self.new }
    {
        let last = self.rule.candidates();
        for candidate in 1..=last {
            if !ending.may_grow_by(self.winner, candidate) {
                continue;
            }
            self.count_one()?;
            let grown = ending.grown_by(candidate);
            if self.rule.rules_out(grown.members(), candidate) {
                continue;
            }
            // By `as`, since nothing else makes a usize of a u32 without failing.
            if grown.len() == last as usize {
                return Ok(Some(grown));
            }
            if let Some(order) = self.below(grown)? {
                return Ok(Some(order));
            }
        }
        Ok(None)
    }

    // The answer that tells what was found below the empty ending.
    fn answer(&self, found: Result<Option<Ending>, LimitReached>) -> Answer
        ensures { run_of result ≡ run_with self.now.tried found }
    {
        match found {
            Err(LimitReached) => Answer::Stopped,
            Ok(Some(order)) => Answer::Found(order, self.tried),
            Ok(None) => Answer::NoSurvivor(self.tried),
        }
    }
}

// Whether `candidate` stands in the rule's contest.
fn is_candidate<R: Rule>(rule: &R, candidate: u32) -> bool
    ensures { result ≡ member (R.contest rule.now) candidate }
{
    let contest = Contest::new(rule.candidates()).unwrap();
    contest.is_candidate(candidate)
}

// The first order, as orders are written backwards, that elects another than `winner` and that the rule does not
// contradict, or that there is none, and how many endings were tried for it; stopped where those would be more than
// `limit`. Whoever is no candidate is refused as the winner.
pub fn find_survivor<R: Rule>(rule: &mut R, winner: u32, limit: u64) -> Result<Answer, Refusal>
    ensures answer { MatchResult result (λ a. (member (R.contest rule.old) winner ≡ true) × Searched (R.contest rule.old) (R.ruling rule.old) winner limit a) (λ e. (member (R.contest rule.old) winner ≡ false) × (e ≡ WinnerNotCandidate)) }
    ensures laws { SearchLaws }
    ensures same { SameRule R.contest R.ruling R.kept rule.old rule.new }
{
    if !is_candidate(rule, winner) {
        return Err(Refusal::WinnerNotCandidate);
    }
    let mut search = Search {
        rule,
        winner,
        limit,
        tried: 0,
    };
    let found = search.below(Ending::empty());
    Ok(search.answer(found))
}
