// The fields of one line of an opened text.
ghost use Rattle.std.specs.Prelude.{MatchResult};
ghost use Rattle.ballot_text.specs.Fields.{FieldsOfLine, IdentifierOfRow, NoSuchLine};

use crate::form::LineForm;
use crate::lines::{BallotLines, RowsText};
use ballot::refusal::Refusal;
use ballot_line::{Field, read_line};

// The two fields of a line, as they stand in the text, and the byte of the text, from 0, where the line begins.
#[derive(Clone, Copy)]
pub struct LineFields<'t> {
    pub first: Field<'t>,
    pub second: Field<'t>,
    pub at: usize,
}

impl<'a, 't, F: LineForm> BallotLines<'a, 't, F> {
    // The fields of a line, from 1.
    pub fn fields(&self, line: u64) -> Result<LineFields<'t>, Refusal>
        ensures { MatchResult result (λ x. FieldsOfLine self.now line x) (λ e. NoSuchLine self.now line e) }
    {
        if line < 1 {
            return Err(Refusal::PlaceOutOfRange);
        }
        let text = self.text.bytes();
        // A count and an index, since the line is asked for by its number and the answer says where it begins.
        let mut passed = 0;
        let mut at = 0;
        while at < text.len() {
            let read = read_line(F::form(), &text[at..]).unwrap();
            passed += 1;
            if passed == line {
                return Ok(LineFields {
                    first: read.first,
                    second: read.second,
                    at,
                });
            }
            at += read.length;
        }
        Err(Refusal::PlaceOutOfRange)
    }
}

impl<'a, 't> RowsText<'a, 't> {
    // The identifier of a row, from 1, and the byte of the text, from 0, where it begins.
    pub fn identifier(&self, row: u64) -> Result<(&'t [u8], usize), Refusal>
        ensures { MatchResult result (λ x. IdentifierOfRow self.now row x.0.now x.1) (λ e. NoSuchLine self.now row e) }
    {
        let fields = self.fields(row)?;
        Ok((fields.first.bytes(), fields.at))
    }
}
