// What a device is: a family of clocked machines, and the refusals that every call shares.
#![tactic(auto)]

mod device;
mod limits;
mod numbering;
mod output;
mod pair;
mod pins;
mod range;
mod refusal;

pub use device::Device;
pub use limits::{MOST_CELLS, MOST_FAULTS, MOST_OUTPUTS, MOST_PAIRS, MOST_PINS, MOST_STATES};
pub use numbering::row_major;
pub use output::outputs_differ;
pub use pair::Pair;
pub use pins::Pins;
pub use range::within;
pub use refusal::Refusal;
