// Checking the live assertions.
ghost use Rattle.irv.specs.Ballots.{slate};
ghost use Rattle.search.specs.Searches.{Searched};
ghost use Rattle.audit.specs.Calls.{checks, Answers, said};
ghost use Rattle.audit.specs.Laws.{EveryHistory};
ghost use Rattle.dossier.specs.Dossiers.{state};
ghost use Rattle.dossier.specs.Rules.{records_ruling};

use crate::dossier::Dossier;
use crate::event::StageEvent;
use crate::live::LiveAssertions;
use audit::verdict::Verdict;
use ballot::refusal::Refusal;
use search::answer::Answer;
use search::searching::find_survivor;

// The most endings that a check may try.
const MOST_ENDINGS: u64 = 100_000_000;

impl Dossier {
    // Searches with the live assertions as the rule.
    fn search(&self, limit: u64) -> Answer
        ensures { Searched (slate self.now.contest.candidates) (records_ruling self.now.contest.candidates self.now.records.items) self.now.winner limit result }
    {
        let mut rule = LiveAssertions {
            contest: self.contest,
            records: self.records.as_slice(),
        };
        find_survivor(&mut rule, self.winner, limit).unwrap()
    }

    // Whether the live assertions contradict each order that elects another than the winner, trying at most `limit`
    // endings, 1 to 100,000,000. Only a check that accepts alters the dossier.
    pub fn check(&mut self, limit: u64) -> Result<Verdict, Refusal>
        ensures answer { Answers (checks limit) (state self.old) (said result) (state self.new) }
        ensures laws { EveryHistory }
    {
        if !(1..=MOST_ENDINGS).contains(&limit) {
            return Err(Refusal::LimitOutOfRange);
        }
        let answer = self.search(limit);
        if let Answer::NoSurvivor(tried) = answer {
            self.endings = tried;
            self.go_on(StageEvent::Accepted);
        }
        Ok(Verdict::from(answer))
    }
}
