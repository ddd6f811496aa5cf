// Happens-before: for each event of a trace the set of the events before it.
#![tactic(auto)]

pub mod closure;
mod sets;

pub use closure::{happens_before, is_before};
pub use sets::{lacks, with};
