// The normal form of a table text: its rows written, and the public call.
#![tactic(auto)]

pub mod normal; // the normal form of a text
pub mod write; // rows as text

pub use normal::normalise;
pub use write::{normal_length, write_normal};
