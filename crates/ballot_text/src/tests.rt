// Texts that are refused, handed out and looked up.
use crate::fault::Fault;
use crate::lines::{GroupsText, RowsText};
use crate::text::BallotText;
use ballot::refusal::Refusal;
use ballot::source::BallotSource;
use ballot_line::TextForm;
use std::test::Fail;

// Matched here, since the form is a value of the table and part of the type of a source.
fn fault_of(form: TextForm, candidates: u32, text: &str) -> Option<Fault> {
    let text = BallotText::new(text.as_bytes());
    match form {
        TextForm::Rows => RowsText::open(candidates, &text).err(),
        TextForm::Groups => GroupsText::open(candidates, &text).err(),
    }
}

// The number, line and byte of a refusal, where the text is not opened.
fn outcome(form: TextForm, candidates: u32, text: &str) -> Option<(u32, usize, usize)> {
    fault_of(form, candidates, text).map(|fault| (fault.cause.number(), fault.line, fault.byte))
}

// The count of the next group, if there is one.
fn next_count(source: &mut GroupsText<'_, '_>) -> Option<u32> {
    source.next().map(|group| group.count())
}

fn is_out_of_range(found: Result<(&[u8], usize), Refusal>) -> bool {
    matches!(found, Err(Refusal::PlaceOutOfRange))
}

#[test]
fn texts_open_or_say_the_first_fault(rt: HostRuntime) {
    let table = [
        ("", TextForm::Rows, 3, None),
        ("A1;2,1\nB-2;-\n", TextForm::Rows, 3, None),
        ("100000000;1\n", TextForm::Groups, 2, None),
        ("A1;1\n", TextForm::Rows, 1, Some((1, 0, 0))),
        ("A1;1\n", TextForm::Rows, 17, Some((1, 0, 0))),
        ("A1;1", TextForm::Rows, 3, Some((8, 1, 5))),
        ("5;1\n01;1\n", TextForm::Groups, 3, Some((8, 2, 2))),
        ("0;4,x\n", TextForm::Groups, 3, Some((8, 1, 5))),
        ("100000001;4\n", TextForm::Groups, 3, Some((10, 1, 1))),
        ("99999999;1\n2;-\n", TextForm::Groups, 3, Some((10, 2, 1))),
        ("A1;2,2\n", TextForm::Rows, 3, Some((9, 1, 6))),
        ("12;3,1,4\n", TextForm::Groups, 3, Some((9, 1, 8))),
    ];
    for (text, form, candidates, expected) in table {
        assert_eq!(rt; outcome(form, candidates, text), expected, "{}", text);
    }
}

#[test]
fn a_rewound_source_begins_again(rt: HostRuntime) -> Result<(), Fail> {
    let text = BallotText::new(b"5;2,1\n7;-\n");
    let mut source = GroupsText::open(3, &text)?;
    assert_eq!(rt; source.ballots(), 12);
    for _ in 0..2 {
        assert_eq!(rt; next_count(&mut source), Some(5));
        assert_eq!(rt; next_count(&mut source), Some(7));
        assert_eq!(rt; next_count(&mut source), None);
        assert_eq!(rt; next_count(&mut source), None);
        source.rewind();
    }
    Ok(())
}

#[test]
fn identifiers_stand_at_their_bytes(rt: HostRuntime) -> Result<(), Fail> {
    let text = BallotText::new(b"A1;2,1\nB-2;-\n007;3\n");
    let source = RowsText::open(3, &text)?;
    assert!(rt; is_out_of_range(source.identifier(0)));
    assert_eq!(rt; source.identifier(1)?, (b"A1".as_slice(), 0));
    assert_eq!(rt; source.identifier(3)?, (b"007".as_slice(), 13));
    assert!(rt; is_out_of_range(source.identifier(4)));
    Ok(())
}
