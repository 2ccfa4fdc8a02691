// The limits of devices, once for all crates. Specs and clauses write the numbers themselves, so that a wrong one here is refused.
pub const MOST_PINS: u8 = 6;

pub const MOST_OUTPUTS: u8 = 32;

pub const MOST_FAULTS: usize = 1024;

pub const MOST_STATES: u16 = 256;

// How many cells a table has with as many states and letters as there can be.
pub const MOST_CELLS: usize = 16384;

// How many pairs of states there are: as many letters as a least sequence can have.
pub const MOST_PAIRS: usize = 65536;
