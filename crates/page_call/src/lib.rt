// The page of a trace: the public call.
#![tactic(auto)]

pub mod paging;

pub use paging::page;
