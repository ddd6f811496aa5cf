// What an order of events does to the rows, and its answers.
#![tactic(auto)]

pub mod running;

pub use running::{Ran, event_work, operation_of, run};
