ghost use Rattle.std.specs.Prelude.{◌≡◌};
ghost use Rattle.report.specs.Outcomes.{rendering, whom_word};

use crate::writing::Writer;
use kiss2::{Refused, Side};
use machine::Refusal;

// A refusal of one text, or of both, with the line at fault.
#[derive(Clone, Copy)]
pub(crate) struct Rejection {
    pub(crate) error: Refused,
    pub(crate) side: Option<Side>,
}

// The word for a text, or for both.
// By the project's rules the report's fixed words are byte strings of its own. Through the `Display` of a side the writer would need an `fmt::Write` of its own, and `both` would still be a case here.
fn side_word(side: Option<Side>) -> &'static [u8]
    ensures { result.now ≡ whom_word side }
{
    match side {
        Some(Side::Good) => b"good",
        Some(Side::Faulty) => b"faulty",
        None => b"both",
    }
}

impl Rejection {
    ghost use Rattle.report.specs.Told.{rejected};
    ghost use Rattle.report.specs.Writing.{Adds};

    // Writes its line.
    pub(crate) fn write(&self, out: &mut Writer)
        ensures { Adds (rendering (rejected self.now)) out.old out.new }
    {
        out.push_all(b"refused ");
        out.push_decimal(usize::from(self.error.refusal.number()));
        out.push(b' ');
        out.push_all(side_word(self.side));
        out.push_count(b" ", self.error.line);
    }
}

// A refusal of both texts, with which no line is at fault.
impl From<Refusal> for Rejection {
    ghost use Rattle.report.specs.Told.{of_both};

    ghost from_gives = { λ refusal rejection. rejection ≡ of_both refusal };

    fn from(refusal: Refusal) -> Rejection {
        Rejection {
            error: refusal.into(),
            side: None,
        }
    }
}
