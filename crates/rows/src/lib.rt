// The entries of all switches in one array, sorted by switch and then in table order, and the tests that events make of them.
#![tactic(auto)]

pub mod filter;
pub mod row;

pub use filter::Filter;
pub use row::{Row, Rows};
