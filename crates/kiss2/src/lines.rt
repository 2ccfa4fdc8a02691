ghost use Rattle.std.specs.Prelude.{◌≡◌, ◌+◌, ◌≤◌, length};

use crate::scanning::{Words, line_length};

// The lines of a text that are left: those from `place` on. Behind the end of the text stands none.
#[derive(Drop)]
pub(crate) struct Lines<'t> {
    text: &'t [u8],
    place: usize,
    ghost within: { place ≤ length text.now + 1 },
}

impl<'t> Lines<'t> {
    // All lines of a text.
    pub(crate) fn of(text: &'t [u8]) -> Lines<'t>
        ensures text { result.text.now ≡ text.now }
        ensures place { result.place ≡ 0 }
    {
        Lines { text, place: 0 }
    }
}

// A line comes as its words.
impl<'t> Iterator for Lines<'t> {
    ghost use Rattle.std.specs.Prelude.{◌-◌};
    ghost use Rattle.std.specs.Iterator.{at_most};
    ghost use Rattle.kiss2.specs.Scanning.{TakesLine};

    type Item = Words<'t>;

    ghost next_gives = { TakesLine };

    ghost remaining = { λ lines. at_most (length lines.text.now + 1 - lines.place) };

    fn next(&mut self) -> Option<Words<'t>> {
        let (text, at) = (self.text, self.place);
        let end = at + line_length(text.get(at..)?);
        self.place = end + 1;
        Some(Words { text, at, end })
    }
}
