// Questions about the members of a device: what tells two apart, where a sequence shows it, how a state is reached, and whether a list of pairs is closed.
#![tactic(auto)]

mod checking;
mod comparing;
mod flaw;
mod pair_set;
mod product;
mod reaching;
mod replaying;
mod state_walk;
mod verdict;

pub use checking::check;
pub use comparing::{compare, search_pairs};
pub use flaw::Flaw;
pub use reaching::reach;
pub use replaying::{first_difference, is_legal, replay};
pub use verdict::Verdict;
