use std::fmt;

// What a comparison says of two members: one of two answers, each with its count, so neither is the absence of the other.
#[derive(Clone, Copy, PartialEq, Eq, Hash, Debug)]
pub enum Verdict {
    // The first `length` letters are the least distinguishing sequence.
    Differ { length: usize },
    // The first `count` pairs are those that the product machine reaches.
    Equivalent { count: usize },
}

impl fmt::Display for Verdict {
    ghost use Rattle.std.specs.Prelude.{Some};
    ghost use Rattle.compare.specs.Verdicts.{verdict_text};

    ghost output = { λ verdict. Some (verdict_text verdict) };

    fn fmt<W: fmt::Write>(&self, f: &mut fmt::Formatter<W>) -> fmt::Result {
        match self {
            Verdict::Differ { length } => write!(f, "differ {length}"),
            Verdict::Equivalent { count } => write!(f, "equivalent {count}"),
        }
    }
}
