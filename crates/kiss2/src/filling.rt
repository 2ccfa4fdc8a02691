ghost use Rattle.std.specs.Prelude.{◌≡◌, ◌+◌, ◌*◌, ◌^◌, ◌<◌, ◌≤◌, length, take};
ghost use Rattle.machine.specs.Lists.{all};
ghost use Rattle.kiss2.specs.Placing.{Placed, put_all, put_at, table};
ghost use Rattle.kiss2.specs.Progressing.{Gave};
ghost use Rattle.kiss2.specs.Rows.{places};

use crate::digits::{bit_of, longer};
use devices::Cell;
use machine::MOST_CELLS;

// A row is at odds with one before it. With no value beside it, an answer is one bit: a `Refusal` in its place took a tenth more instructions.
#[derive(Clone, Copy, PartialEq, Eq, Debug)]
pub(crate) struct Clash;

// A table being filled: its cells, which of them have been given, and the line of the first row at odds with one before it.
// The flags stand beside the cells, since these are the caller's slice, and in an array, as libraries use no heap.
#[derive(Drop)]
pub(crate) struct Filling<'a> {
    pub(crate) cells: &'a mut [Cell],
    pub(crate) given: [bool; MOST_CELLS],
    pub(crate) clash: Option<usize>,
    ghost whole: { length given ≡ 16384 },
}

impl<'a> Filling<'a> {
    ghost use Rattle.kiss2.specs.Readers.{SameCells};

    // Gives the cell at a place, unless another was given there before.
    fn give(&mut self, place: usize, cell: Cell) -> Result<(), Clash>
        requires cells { place < length self.old.cells.now }
        requires few { place < 16384 }
        ensures put { Placed (put_at cell place (table self.old.cells.now self.old.given)) result (table self.new.cells.now self.new.given) }
        ensures clash { self.new.clash ≡ self.old.clash }
        ensures lent { SameCells self.old self.new }
    {
        if !self.given[place] {
            self.given[place] = true;
            self.cells[place] = cell;
            return Ok(());
        }
        let held = self.cells[place];
        if held != cell {
            return Err(Clash);
        }
        Ok(())
    }

    // Gives the cell at each place that the digits lead to: every digit makes the place one bit longer.
    fn give_all(&mut self, digits: &[u8], place: usize, cell: Cell) -> Result<(), Clash>
        requires cells { (place + 1) * 2 ^ length digits.now ≤ length self.old.cells.now }
        requires few { (place + 1) * 2 ^ length digits.now ≤ 16384 }
        ensures put { Placed (put_all cell (places digits.now place) (table self.old.cells.now self.old.given)) result (table self.new.cells.now self.new.given) }
        ensures clash { self.new.clash ≡ self.old.clash }
        ensures lent { SameCells self.old self.new }
    {
        let [digit, rest @ ..] = digits else {
            return self.give(place, cell);
        };
        match bit_of(*digit) {
            Some(bit) => self.give_all(rest, longer(place, bit), cell),
            None => {
                self.give_all(rest, longer(place, false), cell)?;
                self.give_all(rest, longer(place, true), cell)
            }
        }
    }

    // Gives the cells of a row at a line, unless a row was at odds before or some cell lies past the slice. Both are told at the end, as the order of refusals asks.
    pub(crate) fn give_row(&mut self, line: usize, digits: &[u8], state: u16, cell: Cell)
        requires digits { length digits.now ≤ 6 }
        requires state { state < 256 }
        ensures gave { Gave self.old.clash line (record { input = digits.now; current = state; next = cell.next; output = cell.output }) (table self.old.cells.now self.old.given) self.new.clash (table self.new.cells.now self.new.given) }
        ensures lent { SameCells self.old self.new }
    {
        // A cast: with `usize::from` the check does not find the proof of `gave`.
        let end = (state as usize + 1) << digits.len();
        if self.clash.is_some() || self.cells.len() < end {
            return;
        }
        if self.give_all(digits, state as usize, cell).is_err() {
            self.clash = Some(line);
        }
    }

    // Whether each of the first cells is given.
    pub(crate) fn all_given(&self, count: usize) -> bool
        requires { count ≤ 16384 }
        ensures { result ≡ all (λ b. b) (take count self.now.given) }
    {
        self.given[..count].iter().all(|given| *given)
    }
}
