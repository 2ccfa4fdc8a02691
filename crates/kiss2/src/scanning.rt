ghost use Rattle.std.specs.Prelude.{◌≡◌, ◌≤◌, length, ◌==◌};
ghost use Rattle.std.specs.List.{prefix_len};
ghost use Rattle.kiss2.specs.Texts.{ends_word, is_blank, line_length, word_length};

use crate::part::Word;

// Whether the byte is a space, a tab or a carriage return.
fn is_blank(byte: u8) -> bool
    ensures { result ≡ is_blank byte }
{
    matches!(byte, b' ' | b'\t' | b'\r')
}

// Whether no word goes on at the byte: it is a blank, or opens a comment.
fn ends_word(byte: u8) -> bool
    ensures { result ≡ ends_word byte }
{
    is_blank(byte) || byte == b'#'
}

// Whether the byte ends a line.
fn ends_line(byte: u8) -> bool
    ensures { result ≡ (byte == 10) }
{
    byte == b'\n'
}

// How many bytes stand before the first line end.
// This count and the next two are one chain each: a function of the rule could tell its result only byte by byte, and each definition would have to be shown from that.
pub(crate) fn line_length(text: &[u8]) -> usize
    ensures value { result ≡ line_length text.now }
    ensures bound { result ≤ length text.now }
{
    text.iter().take_while(|byte| !ends_line(**byte)).count()
}

// How many blanks the line begins with.
fn blank_count(line: &[u8]) -> usize
    ensures value { result ≡ prefix_len is_blank line.now }
    ensures bound { result ≤ length line.now }
{
    line.iter().take_while(|byte| is_blank(**byte)).count()
}

// How many bytes the line's first word has, if the line begins with one.
fn word_length(line: &[u8]) -> usize
    ensures value { result ≡ word_length line.now }
    ensures bound { result ≤ length line.now }
{
    line.iter().take_while(|byte| !ends_word(**byte)).count()
}

// The words of a line that are left: those of the text from `at` to `end`. The whole text with two places, since a word's place is counted in it.
#[derive(Drop)]
pub(crate) struct Words<'t> {
    pub(crate) text: &'t [u8],
    pub(crate) at: usize,
    pub(crate) end: usize,
    ghost ordered: { at ≤ end },
    ghost inside: { end ≤ length text.now },
}

impl<'t> Iterator for Words<'t> {
    ghost use Rattle.std.specs.Prelude.{◌-◌};
    ghost use Rattle.std.specs.Iterator.{at_most};
    ghost use Rattle.kiss2.specs.Scanning.{TakesWord};

    type Item = Word<'t>;

    ghost next_gives = { TakesWord };

    ghost remaining = { λ words. at_most (words.end - words.at) };

    fn next(&mut self) -> Option<Word<'t>> {
        let place = self.at + blank_count(&self.text[self.at..self.end]);
        let length = word_length(&self.text[place..self.end]);
        if length == 0 {
            return None;
        }
        let end = place + length;
        self.at = end;
        Some(Word {
            bytes: &self.text[place..end],
            place,
        })
    }
}
