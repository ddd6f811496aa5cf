// Matches, keys, entries and packets: what a packet fits, when two matches overlap, when one lies within another, and the
// order of a flow table.
#![tactic(auto)]

pub mod action;
pub mod entry;
pub mod exact;
pub mod matching;
pub mod prefix;

pub use action::Action;
pub use entry::{Entry, Key};
pub use exact::Exact;
pub use matching::{Match, Packet};
pub use prefix::Prefix;
pub use std::cmp::Ordering;
