// An order of events run on slots, and whether two such ends are the same.
#![tactic(auto)]

pub mod ends;
pub mod lookup;
pub mod running;
pub mod stepping;

pub use ends::same;
pub use running::{Ended, run};
