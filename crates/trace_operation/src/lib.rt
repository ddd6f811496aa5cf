// The operation of a line: its switch and its own fields, by the word of `do`.
#![tactic(auto)]

pub mod clear; // no address bit past its prefix
pub mod read; // from a place of a line on

pub use clear::clear_operation;
pub use read::operation_at;
