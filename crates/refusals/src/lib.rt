// What is refused: document 01's table of refusals, and the refused line.
#![tactic(auto)]

pub mod line;
pub mod refusal;
pub mod refused;

pub use line::{refused_line, text_in};
pub use refusal::{Refusal, Returned, Source, refused_if};
pub use refused::Refused;
