// The two forms of texts, and their names.
use std::error::Error;
use std::fmt;
use std::str::FromStr;

// Whether each line is one ballot under an identifier, or a group of equal ballots with their count.
#[derive(Clone, Copy, Debug, PartialEq, Eq)]
pub enum TextForm {
    Rows,
    Groups,
}

// The error of a name that is neither form's.
#[derive(Clone, Copy, Debug, PartialEq, Eq)]
pub struct UnknownForm;

impl FromStr for TextForm {
    type Err = UnknownForm;

    ghost use Rattle.ballot_line.specs.Forms.{NamesForm};

    ghost from_str_gives = { NamesForm };

    fn from_str(name: &str) -> Result<TextForm, UnknownForm> {
        match name {
            "rows" => Ok(TextForm::Rows),
            "groups" => Ok(TextForm::Groups),
            _ => Err(UnknownForm),
        }
    }
}

impl fmt::Display for TextForm {
    ghost use Rattle.std.specs.Prelude.{Some};
    ghost use Rattle.ballot_line.specs.Forms.{form_name};

    ghost output = { λ form. Some (form_name form) };

    fn fmt<W: fmt::Write>(&self, f: &mut fmt::Formatter<W>) -> fmt::Result {
        match self {
            TextForm::Rows => write!(f, "rows"),
            TextForm::Groups => write!(f, "groups"),
        }
    }
}

impl fmt::Display for UnknownForm {
    ghost use Rattle.std.specs.Prelude.{Some, codes};

    ghost output = { λ _. Some (codes "the form is neither rows nor groups") };

    fn fmt<W: fmt::Write>(&self, f: &mut fmt::Formatter<W>) -> fmt::Result {
        write!(f, "the form is neither rows nor groups")
    }
}

impl Error for UnknownForm {}
