// The page of a trace: a line for each listed pair, then the four counts.
#![tactic(auto)]

pub mod counts;
pub mod pairs;

pub use counts::put_counts;
pub use pairs::put_pairs;
