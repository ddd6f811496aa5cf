// The clocks of a trace: whether the time rule puts a later line before an earlier one.
#![tactic(auto)]

pub mod clocks; // the check over the trace
pub mod earliest; // what is kept of the later lines

pub use clocks::check_clocks;
