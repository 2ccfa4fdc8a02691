ghost use Rattle.std.specs.Prelude.{◌≡◌, ◌+◌, ◌-◌, ◌*◌, ◌<◌, ◌↔◌, length, IsNone, IfSome, slice_index_or};
ghost use Rattle.machine.specs.Machines.{Machine, within};
ghost use Rattle.devices.specs.Cells.{good_cell, no_altered_cell};
ghost use Rattle.devices.specs.Tables.{machine_of};
ghost use Rattle.devices.specs.Soundness.{table_sound};

use crate::cell::{AlteredCell, Cell};
use crate::table::Table;
use machine::{Device, row_major, within};

impl<'a> Table<'a> {
    // The good cell of a state and a letter in range.
    fn good_cell(&self, state: u16, letter: u8) -> Cell
        requires state { state < self.now.states }
        requires letter { letter < self.now.letters }
        ensures { result ≡ good_cell self.now.letters self.now.cells.now state letter }
    {
        let letters = u16::from(self.letters);
        self.cells[row_major(letters, state, u16::from(letter))]
    }

    // The altered cell of a member that is a fault.
    fn altered_cell(&self, member: u16) -> Option<AlteredCell>
        ensures none { IsNone result ↔ (within (length self.now.altered.now + 1) member ≡ 0) }
        ensures some { IfSome result (λ altered. altered ≡ slice_index_or self.now.altered.now (member - 1) no_altered_cell) }
    {
        let fault = usize::from(member).checked_sub(1)?;
        self.altered.get(fault).copied()
    }
}

impl<'a> Device for Table<'a> {
    ghost meaning = { machine_of };

    ghost sound = { table_sound };

    fn members(&self) -> u16 {
        self.altered.len() as u16 + 1
    }

    fn letters(&self) -> u8 {
        self.letters
    }

    fn states(&self) -> u16 {
        self.states
    }

    fn reset(&self, _member: u16) -> u16 {
        self.reset
    }

    fn step(&self, member: u16, state: u16, letter: u8) -> (u16, u32) {
        let state = within(self.states, state);
        let letter = within(self.letters, letter);
        match self.altered_cell(member) {
            Some(altered) if altered.state == state && altered.letter == letter => {
                (altered.next, altered.output)
            }
            _ => {
                let good = self.good_cell(state, letter);
                (good.next, good.output)
            }
        }
    }
}
