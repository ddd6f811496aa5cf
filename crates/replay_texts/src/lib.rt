// The two texts that a replay writes, and what it answers.
#![tactic(auto)]

pub mod both; // both texts, where they fit

pub use both::write_both;
