// Numbers in a row, as they are printed.
#![tactic(auto)]

ghost use Rattle.std.specs.Prelude.{Some, decimal};
ghost use Rattle.std.specs.List.{join_by};

use std::fmt;

// Printed in decimal, with the mark between each two.
#[derive(Clone, Copy, Debug)]
pub struct Joined<'n>(pub &'n [u32], pub &'static str);

impl fmt::Display for Joined<'_> {
    ghost output = { λ joined. Some (join_by decimal joined.1.now joined.0.now) };

    fn fmt<W: fmt::Write>(&self, f: &mut fmt::Formatter<W>) -> fmt::Result {
        let Joined(numbers, mark) = *self;
        let Some((first, others)) = numbers.split_first() else {
            return Ok(());
        };
        write!(f, "{first}")?;
        for number in others {
            write!(f, "{mark}{number}")?;
        }
        Ok(())
    }
}
