ghost use Rattle.std.specs.Prelude.{◌≡◌};
ghost use Rattle.kiss2.specs.Readings.{refused};

use machine::Refusal;
use std::error::Error;
use std::fmt;

// Why a text was refused, and at which line, counted from 1; 0 where no line is at fault: callers and the report's readers are promised that number, so it is no `Option`.
#[derive(Clone, Copy, PartialEq, Eq, Debug)]
pub struct Refused {
    pub refusal: Refusal,
    pub line: usize,
}

// A refusal with which no line is at fault.
impl From<Refusal> for Refused {
    ghost from_gives = { λ refusal result. result ≡ refused refusal 0 };

    fn from(refusal: Refusal) -> Refused {
        Refused { refusal, line: 0 }
    }
}

impl fmt::Display for Refused {
    ghost use Rattle.std.specs.Prelude.{Some};
    ghost use Rattle.kiss2.specs.Refusals.{refused_text};

    ghost output = { λ refused. Some (refused_text refused) };

    fn fmt<W: fmt::Write>(&self, f: &mut fmt::Formatter<W>) -> fmt::Result {
        let number = self.refusal.number();
        let line = self.line;
        write!(f, "refused {number} at line {line}")
    }
}

impl Error for Refused {}
