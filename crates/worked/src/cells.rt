ghost use Rattle.std.specs.Prelude.{◌≡◌};
ghost use Rattle.devices.specs.Tables.{machine_of};
ghost use Rattle.worked.specs.Controller.{controller};

use devices::{AlteredCell, Cell, Table};

// The states' names, in the order of their numbers.
pub const NAMES: [&str; 4] = ["00", "01", "11", "10"];

// A row for each state, a cell for each value of the one pin.
pub const CELLS: [Cell; 8] = [
    Cell { next: 1, output: 0 },
    Cell { next: 0, output: 1 },
    Cell { next: 0, output: 0 },
    Cell { next: 2, output: 1 },
    Cell { next: 3, output: 0 },
    Cell { next: 2, output: 0 },
    Cell { next: 2, output: 0 },
    Cell { next: 0, output: 0 },
];

// Fault 1 stays in state 10, fault 2 is no change at all, and fault 3 loses an output.
const ALTERED: [AlteredCell; 3] = [
    AlteredCell {
        state: 3,
        letter: 1,
        next: 3,
        output: 0,
    },
    AlteredCell {
        state: 0,
        letter: 0,
        next: 1,
        output: 0,
    },
    AlteredCell {
        state: 0,
        letter: 1,
        next: 0,
        output: 0,
    },
];

// The worked controller with its three faults.
pub fn controller() -> Table<'static>
    ensures { machine_of result ≡ controller }
{
    Table::new(1, 4, 0, &CELLS, &ALTERED).unwrap()
}
