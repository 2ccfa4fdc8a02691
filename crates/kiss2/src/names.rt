ghost use Rattle.std.specs.Prelude.{◌≡◌, ◌≤◌, length, take};
ghost use Rattle.std.specs.Str.{bytes_eq};
ghost use Rattle.kiss2.specs.Naming.{Enlisted};
ghost use Rattle.kiss2.specs.Progressing.{BothEnlisted, reset_state};
ghost use Rattle.kiss2.specs.Rows.{number_among};
ghost use Rattle.kiss2.specs.Texts.{Stands, bytes_of, part_of};

use crate::part::{Part, Word};
use machine::{MOST_STATES, Refusal};

// Whether the part of the text has these bytes.
fn is_name(text: &[u8], part: Part, name: &[u8]) -> bool
    ensures { result ≡ bytes_eq (bytes_of text.now part) name.now }
{
    part.bytes_in(text) == name
}

// The number of the name among the entries, if it is among them.
fn number_among(text: &[u8], entries: &[Part], name: &[u8]) -> Option<usize>
    ensures { result ≡ number_among text.now entries.now name.now }
{
    entries.iter().position(|entry| is_name(text, *entry, name))
}

// The names of the states so far: parts of the text, in the first entries of a slice.
// The count stands beside the slice, since this is the caller's, as libraries use no heap.
#[derive(Drop)]
pub(crate) struct Names<'t, 'a> {
    pub(crate) text: &'t [u8],
    pub(crate) entries: &'a mut [Part],
    pub(crate) count: u16,
    ghost short: { length text.now ≤ 16384 },
    ghost room: { 256 ≤ length entries.now },
    ghost few: { count ≤ 256 },
}

impl<'t, 'a> Names<'t, 'a> {
    ghost use Rattle.kiss2.specs.Readers.{SameNames};

    // The number of the name, if a state has it.
    fn number_of(&self, name: &[u8]) -> Option<u16>
        ensures { result ≡ number_among self.now.text.now (take self.now.count self.now.entries.now) name.now }
    {
        let entries: &[Part] = &*self.entries;
        let number = number_among(self.text, &entries[..usize::from(self.count)], name)?;
        Some(number as u16)
    }

    // The number of the state that the word names: a new name is entered behind the others. A 257th is refused.
    fn number(&mut self, word: Word) -> Result<u16, Refusal>
        requires { Stands self.old.text.now word }
        ensures enlisted { Enlisted self.old.text.now (take self.old.count self.old.entries.now) (part_of word.entry) self.old.entries.now result self.new.entries.now self.new.count }
        ensures lent { SameNames self.old self.new }
    {
        if let Some(number) = self.number_of(word.bytes) {
            return Ok(number);
        }
        let number = self.count;
        if number == MOST_STATES {
            return Err(Refusal::BadName);
        }
        self.entries[usize::from(number)] = word.part();
        self.count += 1;
        Ok(number)
    }

    // The numbers of the states that two words name, the first before the second.
    pub(crate) fn number_both(&mut self, first: Word, second: Word) -> Result<(u16, u16), Refusal>
        requires first { Stands self.old.text.now first }
        requires second { Stands self.old.text.now second }
        ensures enlisted { BothEnlisted self.old.text.now (take self.old.count self.old.entries.now) (part_of first.entry) (part_of second.entry) self.old.entries.now result self.new.entries.now self.new.count }
        ensures lent { SameNames self.old self.new }
    {
        let one = self.number(first)?;
        let other = self.number(second)?;
        Ok((one, other))
    }

    // The number of the reset state: the first where none is named, and none where no state has the name.
    pub(crate) fn reset_state(&self, reset: Option<Part>) -> Option<u16>
        ensures { result ≡ reset_state self.now.text.now (take self.now.count self.now.entries.now) reset }
    {
        match reset {
            None => Some(0),
            Some(part) => self.number_of(part.bytes_in(self.text)),
        }
    }
}
