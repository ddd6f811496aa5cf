// The rows of a run as slots: what is held of them, and what an event does to them.
#![tactic(auto)]

pub mod plan;

pub use plan::{Plan, Put, Reply, State, Steps};
