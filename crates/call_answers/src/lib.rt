// What the list call and the share call count.
#![tactic(auto)]

pub mod list;
pub mod share;

pub use list::Counts;
pub use share::Share;
