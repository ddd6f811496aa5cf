// A match as words of bits: all its fields compared at once.
#![tactic(auto)]

pub mod matches; // matches, and packets as matches
pub mod words; // words and their masks

pub use matches::{Bits, exactly};
pub use words::Word;
