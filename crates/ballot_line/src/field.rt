// A field of a line: its part of the text.
ghost use Rattle.std.specs.Prelude.{◌≡◌};
ghost use Rattle.ballot_line.specs.Lines.{field_bytes};

#[derive(Clone, Copy)]
pub enum Field<'t> {
    Identifier(&'t [u8]),
    Count(&'t [u8]),
    Ranking(&'t [u8]),
}

impl<'t> Field<'t> {
    // The field's part of the text.
    pub fn bytes(&self) -> &'t [u8]
        ensures { result.now ≡ field_bytes self.now }
    {
        match self {
            Field::Identifier(part) | Field::Count(part) | Field::Ranking(part) => part,
        }
    }
}
