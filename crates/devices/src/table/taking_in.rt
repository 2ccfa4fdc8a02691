ghost use Rattle.devices.specs.TakingIn.{Made, TakenIn};

use crate::cell::{AlteredCell, Cell};
use crate::ranges::{altered_inside, cells_inside};
use crate::table::Table;
use machine::{MOST_FAULTS, MOST_STATES, Pins, Refusal};

impl<'a> Table<'a> {
    // The table of these cells, with 2 to the power of pins letters, where it keeps the rules.
    pub fn new(
        pins: u8,
        states: u16,
        reset: u16,
        cells: &'a [Cell],
        altered: &'a [AlteredCell],
    ) -> Result<Table<'a>, Refusal>
        ensures { Made pins states reset cells.now altered.now result }
    {
        let pins = Pins::try_from(pins)?;
        if states < 1 || states > MOST_STATES || reset >= states {
            return Err(Refusal::OutsideDeviceRules);
        }
        let letters = pins.letters();
        let count = usize::from(states) * usize::from(letters);
        if cells.len() < count {
            return Err(Refusal::WorkTooShort);
        }
        if !cells_inside(states, &cells[..count]) {
            return Err(Refusal::OutsideDeviceRules);
        }
        if altered.len() > MOST_FAULTS || !altered_inside(letters, states, altered) {
            return Err(Refusal::BadAlteredCell);
        }
        Ok(Table {
            cells,
            altered,
            letters,
            states,
            reset,
        })
    }

    // Replaces the device by the table of these cells, or refuses and changes nothing.
    pub fn take_in(
        &mut self,
        pins: u8,
        states: u16,
        reset: u16,
        cells: &'a [Cell],
        altered: &'a [AlteredCell],
    ) -> Result<(), Refusal>
        ensures { TakenIn pins states reset cells.now altered.now self.old self.new result }
    {
        *self = Table::new(pins, states, reset, cells, altered)?;
        Ok(())
    }
}
