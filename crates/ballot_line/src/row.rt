// Rows of numbers, and rankings among them. Where the form breaks, a reader gives back the text from there on.
ghost use Rattle.std.specs.Prelude.{◌≤◌, MatchResult};
ghost use Rattle.fixed_list.specs.Lists.{listed};
ghost use Rattle.forms.specs.Fronts.{BreaksBefore, Numbers, RankingEnd};
ghost use Rattle.ballot_line.specs.Rows.{Marks, TakesNumbers, TakesRanking};

use crate::token::{Taken, Taking, expect, number};
use fixed_list::FixedList;

const MOST_NUMBERS: usize = 16;

// Numbers that the byte `joint` joins, at most `limit` of them, and the byte `end` behind the last.
pub(crate) fn numbers<'t>(
    left: &'t [u8],
    joint: u8,
    end: u8,
    limit: usize,
) -> Taking<'t, FixedList<u32, MOST_NUMBERS>>
    requires marks { Marks joint end }
    requires some { 1 ≤ limit }
    requires room { limit ≤ 16 }
    ensures { MatchResult result (λ n. TakesNumbers joint end limit left.now (listed n.value) n.rest.now) (λ rest. BreaksBefore (Numbers joint end limit) left.now rest.now) }
{
    // A loop, since the byte behind each number says whether there is another.
    let mut value = FixedList::new();
    let mut rest = left;
    loop {
        let next = number(rest)?;
        value.push(next.value).unwrap();
        if let Ok(rest) = expect(next.rest, end) {
            return Ok(Taken { value, rest });
        }
        let full = value.len() == limit;
        if full {
            return Err(next.rest);
        }
        rest = expect(next.rest, joint)?;
    }
}

// A ranking and the end of its line: a hyphen for a blank ballot, or numbers.
pub(crate) fn ranking<'t>(left: &'t [u8]) -> Taking<'t, FixedList<u32, MOST_NUMBERS>>
    ensures { MatchResult result (λ n. TakesRanking left.now (listed n.value) n.rest.now) (λ rest. BreaksBefore RankingEnd left.now rest.now) }
{
    let Ok(blank) = expect(left, b'-') else {
        return numbers(left, b',', b'\n', MOST_NUMBERS);
    };
    let rest = expect(blank, b'\n')?;
    Ok(Taken {
        value: FixedList::new(),
        rest,
    })
}
