// The ballots of a source as a rule.
ghost use Rattle.irv.specs.Recounts.{ballots_ruling};
ghost use Rattle.elimination.specs.Rules.{ballots_sound, SameLent, same_lent_chains};

use crate::tallying::tally_all;
use ballot::candidate_set::CandidateSet;
use ballot::source::BallotSource;
use ballot::walk::contest_of;
use search::rule::Rule;
use search::step::is_step;

// Rules out each step at which somebody who stands has fewer ballots than the one who goes out.
#[derive(Drop)]
pub struct BallotsRule<'s, S> {
    pub(crate) source: &'s mut S,
}

impl<'s, S: BallotSource> Rule for BallotsRule<'s, S> {
    ghost contest = { λ x. S.BallotSource.contest x.source.now };

    ghost ruling = { λ x. ballots_ruling (S.BallotSource.contest x.source.now) (S.BallotSource.groups x.source.now) };

    ghost sound = { λ x. ballots_sound (S.BallotSource.sound x.source.now) };

    ghost kept = { λ x y. SameLent S.BallotSource.contest S.BallotSource.groups x.source y.source };

    ghost chains = { same_lent_chains S.BallotSource.contest S.BallotSource.groups (λ x. x.source) };

    fn candidates(&self) -> u32 {
        self.source.candidates()
    }

    fn rules_out(&mut self, standing: CandidateSet, out: u32) -> bool {
        let contest = contest_of(self.source);
        if !is_step(contest, standing, out) {
            return false;
        }
        let tallies = tally_all(self.source, &standing);
        // Half open, since the library has no law of a chain over `1..=n`.
        (1..contest.candidates() + 1).any(|other| standing.has(other)
            && tallies.of(other) < tallies.of(out))
    }
}
