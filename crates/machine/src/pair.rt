ghost use Rattle.std.specs.Prelude.{◌++◌, Some, codes, decimal};

use std::fmt;

// A state of the product machine: a state of each of two members.
#[derive(Clone, Copy, PartialEq, Eq, PartialOrd, Ord, Hash, Default, Debug)]
pub struct Pair {
    pub first: u16,
    pub second: u16,
}

// As the programs print it: `0-1`.
impl fmt::Display for Pair {
    ghost output = { λ pair. Some (decimal pair.first ++ codes "-" ++ decimal pair.second) };

    fn fmt<W: fmt::Write>(&self, f: &mut fmt::Formatter<W>) -> fmt::Result {
        write!(f, "{}-{}", self.first, self.second)
    }
}
