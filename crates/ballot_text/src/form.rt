// The two forms of texts, as types: which of them a source reads.
ghost use Rattle.std.specs.Prelude.{◌≡◌};
ghost use Rattle.forms.specs.Written.{Form, row_lines, group_lines};
ghost use Rattle.ballot_line.specs.Forms.{form_of};

use ballot_line::TextForm;

// The form of the lines of a text.
pub trait LineForm {
    ghost form: { Form };

    fn form() -> TextForm
        ensures { form_of result ≡ form };
}

// Each line is one ballot under an identifier.
pub struct Rows;

impl LineForm for Rows {
    ghost form = { row_lines };

    fn form() -> TextForm {
        TextForm::Rows
    }
}

// Each line is a count of equal ballots.
pub struct Groups;

impl LineForm for Groups {
    ghost form = { group_lines };

    fn form() -> TextForm {
        TextForm::Groups
    }
}
