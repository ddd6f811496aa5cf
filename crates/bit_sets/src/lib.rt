// Sets of numbers, as words of 64 bits: of N words the numbers below 64 * N.
#![tactic(auto)]

mod search;
mod sets;

pub use search::{MembersFrom, members_of, next};
pub use sets::{common, contains, none, union, with, without};
