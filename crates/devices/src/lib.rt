// The devices: machines that a table of cells describes.
#![tactic(auto)]

mod cell;
mod ranges;
mod table;

pub use cell::{AlteredCell, Cell};
pub use table::Table;
