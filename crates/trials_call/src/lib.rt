// Many orders of a trace's events, tried from the tables of a text.
#![tactic(auto)]

pub mod counting; // orders end to end
pub mod trial; // one order
pub mod trying; // the call

pub use trying::try_orders;
