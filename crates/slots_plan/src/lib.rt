// What the runs of a trace's events from given tables share, worked out once: the slots, and for each event the set of those that it
// asks about and its plan.
#![tactic(auto)]

pub mod asking;
pub mod gathering;
pub mod masks;
pub mod plans;
pub mod priorities;
pub mod slot;
pub mod start;

pub use gathering::slots_of;
pub use masks::masks_of;
pub use plans::plans_of;
pub use priorities::priorities_of;
pub use start::start_of;
