// The line of a listed pair on the page.
#![tactic(auto)]

pub mod line; // what it says
pub mod put; // how it says it

pub use line::{Mention, PairLine, pair_line};
pub use put::put_pair_line;
