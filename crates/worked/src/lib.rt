// The worked controller: four states, one pin, three faults, and what is known of it. Beside it, lists as the programs print them.
#![tactic(auto)]

mod cases;
mod cells;
mod printing;

pub use cases::worked_cases;
pub use cells::{CELLS, NAMES, controller};
pub use printing::Spaced;
