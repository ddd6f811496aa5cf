// What an event does to the rows, and what it answers: its work, and the part of each row in it.
#![tactic(auto)]

pub mod answers;
pub mod one_pass;
pub mod work;

pub use answers::noted;
pub use one_pass::{Passed, pass};
pub use work::{Change, Work, next_free, work_of};
