// The list: the pairs of table events of one switch, judged and counted, and the listed ones written down.
#![tactic(auto)]

mod counts; // the four counts, kept pair by pair
pub mod listing; // the list of a trace's events
mod pass; // one pass over the pairs
mod uses; // what each event is to the list

pub use listing::{list_of, pair_room};
