use std::fmt;

// One of two tables that are set side by side.
#[derive(Clone, Copy, PartialEq, Eq, Hash, Debug)]
pub enum Side {
    Good,
    Faulty,
}

impl fmt::Display for Side {
    ghost use Rattle.std.specs.Prelude.{Some};
    ghost use Rattle.kiss2.specs.Sides.{word_of};

    ghost output = { λ side. Some (word_of side) };

    fn fmt<W: fmt::Write>(&self, f: &mut fmt::Formatter<W>) -> fmt::Result {
        match self {
            Side::Good => write!(f, "good"),
            Side::Faulty => write!(f, "faulty"),
        }
    }
}
