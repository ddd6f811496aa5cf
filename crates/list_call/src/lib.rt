// The list of a trace: the public call.
#![tactic(auto)]

pub mod listing;

pub use listing::list_races;
