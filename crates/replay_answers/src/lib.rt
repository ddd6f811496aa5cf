// The answers of events, kept under their numbers, and their lines.
#![tactic(auto)]

pub mod answers;
pub mod kept;

pub use answers::{answers_length, is_silent, write_answers};
pub use kept::{Kept, no_answers};
