// Document 01's table of the pairs that commute, a function a row, and what it asks of an effect.
#![tactic(auto)]

pub mod cases;
pub mod footprint;

pub use footprint::{EffectKind, Footprint};
