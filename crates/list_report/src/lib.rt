// What `racelist` prints of a trace.
#![tactic(auto)]

pub mod printing;

pub use printing::{report, room};
