// What the events of a trace do to a flow table, and what they answer.
#![tactic(auto)]

pub mod carried;
pub mod effect;
pub mod keys;
pub mod operation;

pub use carried::{Carried, carried_by};
pub use effect::{Effect, effect_of, table_effect};
pub use keys::clash;
pub use operation::{Answer, Operation, Origin, TableOperation};
