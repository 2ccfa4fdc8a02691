// One breadth-first search for every kind of walk, and the least sequence that meets the walk's goal.
#![tactic(auto)]

mod back_links;
mod breadth_first;
mod found;
mod path;
mod search_error;
mod visit;
mod walk;
mod worklist;

pub use found::{Found, check_work, shortest};
pub use search_error::SearchError;
pub use visit::Visit;
pub use walk::Walk;
