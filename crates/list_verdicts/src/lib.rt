// The verdict on a pair of operations: no pair, or ordered, commuting or listed.
#![tactic(auto)]

pub mod verdict;

pub use verdict::{TableUse, Verdict, use_of, verdict_of};
