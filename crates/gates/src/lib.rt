// Devices given by gate lists, with the stuck-at faults of their nets.
#![tactic(auto)]

mod gate;
mod gates;
mod nets;
mod pass;
mod rules;
mod stuck_at;

pub use gate::{Gate, Kind};
pub use gates::Gates;
