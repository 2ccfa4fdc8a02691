// A campaign: a whole fault list judged against the good machine, with the sequences that were kept.
#![tactic(auto)]

mod asking;
mod campaign;
mod grading;
mod judging;
mod ledger;
mod mark;
mod tally;

pub use campaign::Campaign;
pub use ledger::{LETTERS, SEQUENCES};
pub use mark::Mark;
pub use tally::Tally;
