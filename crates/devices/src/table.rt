ghost use Rattle.std.specs.Prelude.{◌≡◌, ◌*◌, ◌<◌, ◌≤◌, true, length, take};
ghost use Rattle.devices.specs.Cells.{cells_inside, altered_inside};

use crate::cell::{AlteredCell, Cell};

mod device;
mod idle;
mod taking_in;

// A device given by its cells: the cell of state q and letter l stands at q * letters + l.
// Fault k = 1, 2, .. has the altered cell k - 1 in the place of a good cell, and all other cells as they are.
// Letters are counted here and not by `Pins`, from which each step would work the count out anew.
#[derive(Clone, Copy, PartialEq, Eq, Hash, Debug)]
pub struct Table<'a> {
    cells: &'a [Cell],
    altered: &'a [AlteredCell],
    letters: u8,
    states: u16,
    reset: u16,
    ghost some_letter: { 1 ≤ letters },
    ghost few_letters: { letters ≤ 64 },
    ghost few_states: { states ≤ 256 },
    ghost reset_inside: { reset < states },
    ghost all_cells: { states * letters ≤ length cells.now },
    ghost next_inside: { cells_inside states (take (states * letters) cells.now) ≡ true },
    ghost few_altered: { length altered.now ≤ 1024 },
    ghost alterations_inside: { altered_inside letters states altered.now ≡ true },
}
