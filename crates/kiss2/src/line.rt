ghost use Rattle.std.specs.Prelude.{◌≡◌};
ghost use Rattle.kiss2.specs.Texts.{Stands, part_of, words_left};
ghost use Rattle.kiss2.specs.Lines.{ReadsAs, directive_of, line_of, opens_with_stop, row_of};

use crate::part::Word;
use crate::scanning::Words;
use machine::Refusal;

// The directives that take a word.
#[derive(Clone, Copy, PartialEq, Eq, Hash, Debug)]
pub enum Key {
    Inputs,
    Outputs,
    Rows,
    States,
    Reset,
}

// A line of a state table.
#[derive(Clone, Copy, PartialEq, Eq, Hash, Debug)]
pub enum Line<'t> {
    Blank,
    Directive { key: Key, value: Word<'t> },
    End,
    Row(Row<'t>),
}

// A row of a state table: at this input the current state goes to the next, with this output.
#[derive(Clone, Copy, PartialEq, Eq, Hash, Debug)]
pub struct Row<'t> {
    pub input: Word<'t>,
    pub current: Word<'t>,
    pub next: Word<'t>,
    pub output: Word<'t>,
}

impl<'t> Row<'t> {
    // The states that the row names, in the order in which they are numbered.
    pub(crate) fn states(self) -> (Word<'t>, Word<'t>)
        ensures current { result.0 ≡ self.entry.current }
        ensures next { result.1 ≡ self.entry.next }
    {
        (self.current, self.next)
    }
}

// The directive that a letter names.
impl TryFrom<u8> for Key {
    ghost use Rattle.std.specs.Prelude.{◌≡◌};
    ghost use Rattle.std.specs.Option.{ok_or};
    ghost use Rattle.machine.specs.declared.refusal.Refusal.TheVariants.{BadLine};
    ghost use Rattle.kiss2.specs.Lines.{key_of};

    type Error = Refusal;

    ghost try_from_gives = { λ letter result. result ≡ ok_or (key_of letter) BadLine };

    fn try_from(letter: u8) -> Result<Key, Refusal> {
        match letter {
            b'i' => Ok(Key::Inputs),
            b'o' => Ok(Key::Outputs),
            b'p' => Ok(Key::Rows),
            b's' => Ok(Key::States),
            b'r' => Ok(Key::Reset),
            _ => Err(Refusal::BadLine),
        }
    }
}

// Whether the word begins with a full stop.
pub(crate) fn opens_with_stop(bytes: &[u8]) -> bool
    ensures { result ≡ opens_with_stop bytes.now }
{
    matches!(bytes, [b'.', ..])
}

// A directive, by its letter and the words behind it.
fn directive_of<'t>(letter: u8, words: &mut Words<'t>) -> Result<Line<'t>, Refusal>
    ensures { ReadsAs words.old.text.now (directive_of letter (words_left words.old.text.now words.old.at words.old.end)) result }
{
    let Some(value) = words.next() else {
        return if letter == b'e' {
            Ok(Line::End)
        } else {
            Err(Refusal::BadLine)
        };
    };
    if words.next().is_some() {
        return Err(Refusal::BadLine);
    }
    let key = Key::try_from(letter)?;
    Ok(Line::Directive { key, value })
}

// A row, by its first word and those behind it.
fn row_of<'t>(input: Word<'t>, words: &mut Words<'t>) -> Result<Line<'t>, Refusal>
    requires { Stands words.old.text.now input }
    ensures { ReadsAs words.old.text.now (row_of words.old.text.now (part_of input.entry) (words_left words.old.text.now words.old.at words.old.end)) result }
{
    let current = words.next().ok_or(Refusal::BadLine)?;
    let next = words.next().ok_or(Refusal::BadLine)?;
    let output = words.next().ok_or(Refusal::BadLine)?;
    if words.next().is_some() || opens_with_stop(current.bytes) || opens_with_stop(next.bytes) {
        return Err(Refusal::BadLine);
    }
    Ok(Line::Row(Row {
        input,
        current,
        next,
        output,
    }))
}

// What a line of these words says: the first decides.
pub(crate) fn parse_line<'t>(mut words: Words<'t>) -> Result<Line<'t>, Refusal>
    ensures { ReadsAs words.entry.text.now (line_of words.entry.text.now (words_left words.entry.text.now words.entry.at words.entry.end)) result }
{
    let Some(first) = words.next() else {
        return Ok(Line::Blank);
    };
    match first.bytes {
        // The project's rules name this form: full stop, letter, rest.
        [b'.', letter, rest @ ..] if rest.is_empty() => directive_of(*letter, &mut words),
        [b'.', ..] => Err(Refusal::BadLine),
        _ => row_of(first, &mut words),
    }
}
