ghost use Rattle.std.specs.Prelude.{◌≡◌, drop};
ghost use Rattle.kiss2.specs.Sides.{lies_in};
ghost use Rattle.kiss2.specs.Texts.{FitsPart, bytes_of, part_of};

// A part of a text: where it begins, and how many bytes it has. No slice of the text, since entries lie in the caller's slice, which lends none.
#[derive(Clone, Copy, PartialEq, Eq, Hash, Debug, Default)]
pub struct Part {
    pub place: u16,
    pub length: u16,
}

// The bytes of the text from a place on. It is cold: a part mostly lies in its text, and the test for that is then all that it costs.
#[cold]
#[inline(never)]
fn rest_of(text: &[u8], place: usize) -> &[u8]
    ensures { result.now ≡ drop place text.now }
{
    &text[text.len().min(place)..]
}

impl Part {
    // Whether the part lies in the text.
    pub(crate) fn lies_in(self, text: &[u8]) -> bool
        ensures { result ≡ lies_in text.now self }
    {
        usize::from(self.place) + usize::from(self.length) <= text.len()
    }

    // The bytes of the part, as far as they lie in the text.
    pub fn bytes_in(self, text: &[u8]) -> &[u8]
        ensures { result.now ≡ bytes_of text.now self }
    {
        let place = usize::from(self.place);
        if self.lies_in(text) {
            &text[place..place + usize::from(self.length)]
        } else {
            rest_of(text, place)
        }
    }
}

// A word of a text, with its place.
// That place and length fit 16 bits (`FitsPart`) and that a word stands in its text (`Stands`) is asked in contracts and is no ghost field: the type is public and knows no text, and may ask no more of who makes a word than it did.
#[derive(Clone, Copy, PartialEq, Eq, Hash, Debug)]
pub struct Word<'t> {
    pub bytes: &'t [u8],
    pub place: usize,
}

impl<'t> Word<'t> {
    // The part of the text that the word is.
    pub(crate) fn part(self) -> Part
        requires { FitsPart self }
        ensures { result ≡ part_of self.entry }
    {
        Part {
            place: self.place as u16,
            length: self.bytes.len() as u16,
        }
    }
}
