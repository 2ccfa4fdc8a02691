// The report over two state tables that are given as text.
#![tactic(auto)]

mod listing;
mod names;
mod outcome;
mod rejection;
mod reporting;
mod sequence;
mod source;
mod tables;
mod writing;

pub use reporting::report;
