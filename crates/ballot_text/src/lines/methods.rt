// Opening the lines of a text, and handing out their groups.
ghost use Rattle.std.specs.Prelude.{MatchResult};
ghost use Rattle.ballot.specs.Values.{contest_slate};
ghost use Rattle.ballot_line.specs.Forms.{form_of};
ghost use Rattle.ballot_text.specs.Openings.{ReadsAll, FaultyText, OpeningRefused};
ghost use Rattle.ballot_text.specs.Sources.{line_groups, lines_sound, OpenedText};
ghost use Rattle.ballot_text.specs.Texts.{text_bytes};

use crate::fault::Fault;
use crate::form::LineForm;
use crate::lines::BallotLines;
use crate::text::BallotText;
use ballot::contest::Contest;
use ballot::group::Group;
use ballot::source::BallotSource;
use ballot_line::{TextForm, take_group};
use std::marker::PhantomData;

// How many ballots the lines of the text have together, or the first faulty line.
fn read_all(form: TextForm, contest: Contest, text: &BallotText<'_>) -> Result<u32, Fault>
    ensures { MatchResult result (λ sum. ReadsAll (form_of form) (contest_slate contest) (text_bytes text.now) sum) (λ e. FaultyText (form_of form) (contest_slate contest) (text_bytes text.now) e) }
{
    // A loop with counts beside it, since a line is judged by the ballots before it, and its fault names its number.
    let mut sum = 0;
    let mut line = 1;
    let mut left = text.bytes();
    while !left.is_empty() {
        let read = take_group(form, contest, sum, left).map_err(|fault| Fault::on_line(
            line, fault,
        ))?;
        sum += read.group.count();
        line += 1;
        left = &left[read.length..];
    }
    Ok(sum)
}

impl<'a, 't, F: LineForm> BallotLines<'a, 't, F> {
    // The text as a source for a contest of so many candidates, its place at the start; or why it is refused:
    // the number of candidates first, then the first faulty line.
    pub fn open(candidates: u32, text: &'a BallotText<'t>) -> Result<BallotLines<'a, 't, F>, Fault>
        ensures { MatchResult result (λ s. OpenedText candidates (text_bytes text.now) s) (λ e. OpeningRefused F.form candidates (text_bytes text.now) e) }
    {
        let contest = Contest::new(candidates)?;
        let ballots = read_all(F::form(), contest, text)?;
        Ok(BallotLines {
            contest,
            text,
            ballots,
            at: 0,
            place: 0,
            form: PhantomData,
        })
    }
}

impl<'a, 't, F: LineForm> BallotSource for BallotLines<'a, 't, F> {
    ghost contest = { λ s. contest_slate s.contest };

    ghost groups = { line_groups };

    ghost place = { λ s. s.place };

    ghost sound = { lines_sound };

    fn candidates(&self) -> u32 {
        self.contest.candidates()
    }

    fn ballots(&self) -> u32 {
        self.ballots
    }

    fn rewind(&mut self) {
        self.at = 0;
        self.place = 0;
    }

    fn next(&mut self) -> Option<Group> {
        let at = self.at;
        let text = self.text.bytes();
        if at >= text.len() {
            return None;
        }
        let read = take_group(F::form(), self.contest, 0, &text[at..]).unwrap();
        self.at = at + read.length;
        self.place += 1;
        Some(read.group)
    }
}
