// The whole text of a trace: its events, or what is refused.
#![tactic(auto)]

pub mod text; // the checks of the text and its lines
mod tokens; // the checks of the tokens over the trace

pub use text::read_trace;
