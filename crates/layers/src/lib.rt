// Layers over devices: each is a device again.
#![tactic(auto)]

mod observed;
mod rivals;
mod tied;

pub use observed::Observed;
pub use rivals::Rivals;
pub use tied::Tied;
