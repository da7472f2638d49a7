// Opens the text of each case on standard input, and prints what was opened or why it was refused.
// A case is a line CANDIDATES rows|groups TEXT, where \n in the text stands for the end of a line.
#![tactic(auto)]

use anyhow::Context;
use ballot::source::BallotSource;
use ballot::walk::groups_in;
use ballot_line::TextForm;
use ballot_text::{BallotText, Fault, GroupsText, RowsText};
use std::fmt;
use std::str::from_utf8;

const USAGE: &str = "each line of standard input is CANDIDATES rows|groups TEXT";

#[derive(Clone, Copy)]
struct Case<'c> {
    candidates: u32,
    form: TextForm,
    text: &'c str,
}

// What a text holds that was opened; of rows, the first identifier and the byte where it begins.
#[derive(Clone, Copy)]
struct Contents<'t> {
    groups: u32,
    ballots: u32,
    first: Option<(&'t [u8], usize)>,
}

impl<'t> Contents<'t> {
    fn of<S: BallotSource>(source: &mut S) -> Contents<'t> {
        Contents {
            groups: groups_in(source),
            ballots: source.ballots(),
            first: None,
        }
    }
}

impl fmt::Display for Contents<'_> {
    fn fmt<W: fmt::Write>(&self, f: &mut fmt::Formatter<W>) -> fmt::Result {
        write!(f, "{} groups, {} ballots", self.groups, self.ballots)?;
        if let Some((identifier, at)) = self.first {
            let name = from_utf8(identifier).map_err(|_| fmt::Error)?;
            write!(f, ", first {name} at {at}")?;
        }
        Ok(())
    }
}

// The case that a line writes. An `Option`, since the usage answers whatever is wrong with it.
fn case_in(line: &str) -> Option<Case<'_>> {
    let (number, rest) = line.split_once(' ')?;
    let (name, text) = rest.split_once(' ').unwrap_or((rest, ""));
    Some(Case {
        candidates: number.parse().ok()?,
        form: name.parse().ok()?,
        text,
    })
}

// Matched here, since the form is a value of the case and part of the type of a source.
fn open<'t>(candidates: u32, form: TextForm, text: &BallotText<'t>) -> Result<Contents<'t>, Fault> {
    match form {
        TextForm::Rows => {
            let mut rows = RowsText::open(candidates, text)?;
            Ok(Contents {
                first: rows.identifier(1).ok(),
                ..Contents::of(&mut rows)
            })
        }
        TextForm::Groups => Ok(Contents::of(&mut GroupsText::open(candidates, text)?)),
    }
}

fn main(rt: HostRuntime) -> anyhow::Result<()> {
    for line in rt.lines(rt.alloc()) {
        let line = line?;
        let case = case_in(line.as_str()).context(USAGE)?;
        let bytes = case.text.replace(rt.alloc(), "\\n", "\n")?;
        let text = BallotText::new(bytes.as_bytes());
        match open(case.candidates, case.form, &text) {
            Ok(contents) => println!(rt; "{line} -> opens: {contents}")?,
            Err(fault) => println!(rt;
                "{line} -> refused={} line={} byte={}",
                fault.cause.number(),
                fault.line,
                fault.byte
            )?,
        }
    }
    Ok(())
}
