// Whether two events of one switch commute.
#![tactic(auto)]

pub mod kinds;

pub use kinds::commutes;
