ghost use Rattle.std.specs.Prelude.{◌↔◌, ◌<◌, length, IsTrue};
ghost use Rattle.kiss2.specs.Concluding.{Read};

use crate::filling::Filling;
use crate::names::Names;
use crate::part::Part;
use crate::reader::Reader;
use crate::refused::Refused;
use crate::shape::Shape;
use devices::Cell;
use machine::{MOST_CELLS, MOST_STATES, Refusal};

// As many bytes as a text may have.
const TEXT: usize = 16384;

// Whether the text has more.
fn is_too_long(text: &[u8]) -> bool
    ensures { IsTrue result ↔ (16384 < length text.now) }
{
    text.len() > TEXT
}

// Reads a state table: its cells and the names of its states go into the first entries of the slices.
// A text that is refused may leave anything in them.
pub fn read(text: &[u8], cells: &mut [Cell], names: &mut [Part]) -> Result<Shape, Refused>
    ensures { Read text.now cells.old names.old result cells.new names.new }
{
    if names.len() < usize::from(MOST_STATES) {
        return Err(Refusal::WorkTooShort.into());
    }
    if is_too_long(text) {
        return Err(Refusal::TextTooLong.into());
    }
    let mut names = Names {
        text,
        entries: names,
        count: 0,
    };
    let mut table = Filling {
        cells,
        given: [false; MOST_CELLS],
        clash: None,
    };
    let mut reader = Reader::default();
    reader.read_lines(&mut names, &mut table)?;
    reader.conclude(&names, &table)
}
