ghost use Rattle.worked.specs.Printing.{spaced_text};

use std::fmt;

// Items as the programs print them, each behind a space: letters ` 0 1 0`, pairs of states ` 0-0 1-3`.
#[derive(Clone, Copy, Debug)]
pub struct Spaced<'a, T>(pub &'a [T]);

impl<T: fmt::Display> fmt::Display for Spaced<'_, T> {
    ghost output = { λ spaced. spaced_text T.output spaced.0.now };

    fn fmt<W: fmt::Write>(&self, f: &mut fmt::Formatter<W>) -> fmt::Result {
        for item in self.0 {
            write!(f, " {item}")?;
        }
        Ok(())
    }
}
