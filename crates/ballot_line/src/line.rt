// Lines: a first field, a semicolon, a ranking and the end of the line.
ghost use Rattle.std.specs.Prelude.{◌≡◌, ◌-◌, ◌≤◌, length, take, MatchResult};
ghost use Rattle.forms.specs.Languages.{Breaks};
ghost use Rattle.forms.specs.Written.{LineOf};
ghost use Rattle.forms.specs.Fronts.{BreaksBefore};
ghost use Rattle.ballot_line.specs.Forms.{form_of};
ghost use Rattle.ballot_line.specs.Lines.{TakesHead, NoHead, ReadsLine};

use crate::field::Field;
use crate::form::TextForm;
use crate::row::ranking;
use crate::token::{Taken, Taking, expect, identifier, number};
use fixed_list::FixedList;

// What a line says: its two fields as they stand in the text, how many ballots it makes, the numbers of its
// ranking, and how many bytes it has with its end.
#[derive(Clone, Copy)]
pub struct LineRead<'t> {
    pub first: Field<'t>,
    pub second: Field<'t>,
    pub count: u32,
    pub numbers: FixedList<u32, 16>,
    pub length: usize,
}

// A first field, and how many ballots it makes.
#[derive(Clone, Copy)]
struct FirstField<'t> {
    field: Field<'t>,
    count: u32,
}

// The part of `left` in front of `rest`, which ends it.
fn before<'t>(left: &'t [u8], rest: &[u8]) -> &'t [u8]
    requires { length rest.now ≤ length left.now }
    ensures { result.now ≡ take (length left.now - length rest.now) left.now }
{
    &left[..left.len() - rest.len()]
}

// The first field of a line. The forms differ in it alone, and are told apart here alone.
fn head<'t>(form: TextForm, left: &'t [u8]) -> Taking<'t, FirstField<'t>>
    ensures { MatchResult result (λ h. TakesHead (form_of form) left.now h.value.field h.value.count h.rest.now) (λ rest. NoHead (form_of form) left.now rest.now) }
{
    match form {
        TextForm::Rows => {
            let name = identifier(left)?;
            Ok(Taken {
                value: FirstField {
                    field: Field::Identifier(name.value),
                    count: 1,
                },
                rest: name.rest,
            })
        }
        TextForm::Groups => {
            let count = number(left)?;
            let bytes = before(left, count.rest);
            Ok(Taken {
                value: FirstField {
                    field: Field::Count(bytes),
                    count: count.value,
                },
                rest: count.rest,
            })
        }
    }
}

// The line in front of `left`; where its form breaks, the text from there on.
fn take_line<'t>(form: TextForm, left: &'t [u8]) -> Result<LineRead<'t>, &'t [u8]>
    ensures { MatchResult result (λ l. ReadsLine (form_of form) left.now l) (λ rest. BreaksBefore (LineOf (form_of form)) left.now rest.now) }
{
    let head = head(form, left)?;
    let behind = expect(head.rest, b';')?;
    let row = ranking(behind)?;
    let len = behind.len() - row.rest.len() - 1;
    Ok(LineRead {
        first: head.value.field,
        second: Field::Ranking(&behind[..len]),
        count: head.value.count,
        numbers: row.value,
        length: left.len() - row.rest.len(),
    })
}

// The line in front of `left`, or the first byte, from 0, at which `left` is no longer the beginning of a line.
pub fn read_line<'t>(form: TextForm, left: &'t [u8]) -> Result<LineRead<'t>, usize>
    ensures { MatchResult result (λ l. ReadsLine (form_of form) left.now l) (λ i. Breaks (LineOf (form_of form)) left.now i) }
{
    take_line(form, left).map_err(|rest| left.len() - rest.len())
}
