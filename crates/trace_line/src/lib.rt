// A line of a trace as an event.
#![tactic(auto)]

pub mod line; // the whole line

pub use line::event_line;
