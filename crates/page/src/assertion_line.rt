// The line of an assertion.
ghost use Rattle.std.specs.Prelude.{ℕ, List};
ghost use Rattle.std.specs.Iterator.{IsFinite, Drains};
ghost use Rattle.irv.specs.AssertionForms.{comma, numbers_by, assertion_bytes};
ghost use Rattle.irv.specs.Assertions.{members_of};
ghost use Rattle.assertion.specs.Kinds.{written_kind};
ghost use Rattle.audit.specs.Pages.{assertion_line};

use crate::sink::Sink;
use crate::writing::{write_bytes, write_number};
use assertion::assertion::Assertion;
use ballot::candidate_set::CandidateSet;

// Puts the numbers, with the byte `mark` between them.
fn write_joined<S: Sink, I: Iterator<Item = u32> + Drop>(sink: &mut S, mark: u8, mut numbers: I)
    requires can { I.can_next numbers }
    requires ends { IsFinite (I.remaining numbers) }
    ensures { (vs : List ℕ) × Drains I.next_gives numbers vs × S.took sink.old (numbers_by mark vs) sink.new }
{
    if let Some(first) = numbers.next() {
        write_number(sink, u64::from(first));
        for number in numbers {
            sink.put(mark);
            write_number(sink, u64::from(number));
        }
    }
}

// Puts the numbers with commas between them.
fn write_numbers<S: Sink>(sink: &mut S, numbers: &[u32])
    ensures { S.took sink.old (numbers_by comma numbers.now) sink.new }
{
    write_joined(sink, b',', numbers.iter().copied());
}

// Puts the members of a set, ascending, with plus signs between them.
fn write_members<S: Sink>(sink: &mut S, set: &CandidateSet)
    ensures { S.took sink.old (numbers_by 43 (members_of set.now)) sink.new }
{
    // Half open, since a walk over `1..=16` takes longer.
    write_joined(sink, b'+', (1..17).filter(|c| set.has(*c)));
}

// Puts an assertion as it is written.
fn write_assertion<S: Sink>(sink: &mut S, assertion: &Assertion)
    ensures { S.took sink.old (assertion_bytes (written_kind assertion.now)) sink.new }
{
    match assertion {
        Assertion::Neb(a) => {
            write_bytes(sink, b"NEB,");
            write_numbers(sink, &[a.winner, a.loser]);
        }
        Assertion::Nen(a) => {
            write_bytes(sink, b"NEN,");
            write_numbers(sink, &[a.winner, a.loser]);
            sink.put(b',');
            write_members(sink, &a.standing);
        }
        Assertion::Majority(a) => {
            write_bytes(sink, b"MAJ,");
            write_numbers(sink, &[a.winner, a.part, a.whole]);
        }
    }
}

// Puts the line of an assertion under its number.
pub fn assertion_line<S: Sink>(sink: &mut S, number: u32, assertion: &Assertion)
    ensures { S.took sink.old (assertion_line (record { number = number; assertion = assertion.now })) sink.new }
{
    write_bytes(sink, b"assertion=");
    write_number(sink, u64::from(number));
    sink.put(b',');
    write_assertion(sink, assertion);
    sink.put(b'\n');
}
