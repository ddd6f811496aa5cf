// Replay: what an order of a trace's events does to the tables of a text.
#![tactic(auto)]

pub mod replaying;

pub use replaying::replay;
