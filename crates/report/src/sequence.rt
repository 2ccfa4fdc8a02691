ghost use Rattle.std.specs.Prelude.{◌≤◌};
ghost use Rattle.report.specs.Outcomes.{differ, rendering};

use crate::writing::Writer;
use machine::Pins;

// A sequence of letters, over these pins.
#[derive(Clone, Copy)]
pub(crate) struct Sequence<'a> {
    pub(crate) pins: Pins,
    pub(crate) letters: &'a [u8],
}

impl Sequence<'_> {
    ghost use Rattle.report.specs.Writing.{Adds};

    // Writes how many letters there are, and a line for each.
    pub(crate) fn write(&self, out: &mut Writer)
        ensures { Adds (rendering (differ self.now.pins.count self.now.letters.now)) out.old out.new }
    {
        out.push_count(b"differ ", self.letters.len());
        for letter in self.letters {
            out.push_binary(self.pins.count, *letter);
            out.push(b'\n');
        }
    }
}
