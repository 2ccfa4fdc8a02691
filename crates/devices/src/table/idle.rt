ghost use Rattle.std.specs.Prelude.{◌≡◌};
ghost use Rattle.devices.specs.Tables.{idle, machine_of};

use crate::cell::Cell;
use crate::table::Table;

// The one cell of the idle device.
const STAYS: [Cell; 1] = [Cell { next: 0, output: 0 }];

impl<'a> Table<'a> {
    // The idle device: one member, one letter, one state and output 0.
    pub fn idle() -> Table<'a>
        ensures { machine_of result ≡ idle }
    {
        Table {
            cells: &STAYS,
            altered: &[],
            letters: 1,
            states: 1,
            reset: 0,
        }
    }
}
