ghost use Rattle.std.specs.Prelude.{◌≡◌};
ghost use Rattle.devices.specs.Cells.{cells_inside, altered_inside};

use crate::cell::{AlteredCell, Cell};

// Whether each cell leads to a state.
// These two tests are functions: where the chains stand in `Table::new` itself, the check does not find the table's rules from them.
pub(crate) fn cells_inside(states: u16, cells: &[Cell]) -> bool
    ensures { result ≡ cells_inside states cells.now }
{
    cells.iter().all(|cell| cell.is_inside(states))
}

// Whether each altered cell stands at a state and a letter, and leads to a state.
pub(crate) fn altered_inside(letters: u8, states: u16, altered: &[AlteredCell]) -> bool
    ensures { result ≡ altered_inside letters states altered.now }
{
    altered.iter().all(|cell| cell.is_inside(letters, states))
}
