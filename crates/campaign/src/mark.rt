use std::fmt;

// Where a fault stands.
#[derive(Clone, Copy, PartialEq, Eq, Hash, Debug)]
pub enum Mark {
    Open,
    // By the number of the first kept sequence that distinguishes it.
    Found(u16),
    Undetectable,
}

impl fmt::Display for Mark {
    ghost use Rattle.std.specs.Prelude.{Some};
    ghost use Rattle.campaign.specs.Marks.{mark_text};

    ghost output = { λ mark. Some (mark_text mark) };

    fn fmt<W: fmt::Write>(&self, f: &mut fmt::Formatter<W>) -> fmt::Result {
        match self {
            Mark::Open => f.write_str("open"),
            Mark::Found(number) => write!(f, "found by {number}"),
            Mark::Undetectable => f.write_str("undetectable"),
        }
    }
}
