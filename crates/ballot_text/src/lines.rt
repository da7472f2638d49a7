// The lines of a text of ballots, as a source.
ghost use Rattle.ballot_text.specs.Readings.{Reading};
ghost use Rattle.ballot_text.specs.Texts.{text_bytes};

use crate::form::{Groups, LineForm, Rows};
use crate::text::BallotText;
use ballot::contest::Contest;
use std::marker::PhantomData;

pub mod fields;
pub mod methods;

// `ballots` is how many ballots the lines have together; `place` counts the lines that were handed out, and the
// next begins at byte `at`: a byte and not the rest of the text, since a rewound source begins again.
#[derive(Drop)]
pub struct BallotLines<'a, 't, F: LineForm> {
    contest: Contest,
    text: &'a BallotText<'t>,
    ballots: u32,
    at: usize,
    place: usize,
    form: PhantomData<F>,
    ghost reading: { ∥ Reading F.form contest.candidates (text_bytes text.now) ballots at place ∥₁ },
}

// Rows text as a ballot source.
pub type RowsText<'a, 't> = BallotLines<'a, 't, Rows>;

// Groups text as a ballot source.
pub type GroupsText<'a, 't> = BallotLines<'a, 't, Groups>;
