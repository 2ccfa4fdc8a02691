// State tables as text: the KISS2 layout, read into cells and names.
#![tactic(auto)]

mod digits;
mod directives;
mod filling;
mod heading;
mod line;
mod lines;
mod names;
mod naming;
mod part;
mod reader;
mod reading;
mod refused;
mod scanning;
mod shape;
mod side;

pub use line::{Key, Line, Row};
pub use naming::name;
pub use part::{Part, Word};
pub use reading::read;
pub use refused::Refused;
pub use shape::Shape;
pub use side::Side;
