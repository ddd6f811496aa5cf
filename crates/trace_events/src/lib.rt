// The events of a trace, and when an event directly precedes a later one.
#![tactic(auto)]

pub mod barriers;
pub mod event;
pub mod head;
pub mod side;
pub mod tokens;
pub mod trace;

pub use barriers::switch_of;
pub use event::Event;
pub use head::Head;
pub use side::Side;
pub use tokens::Tokens;
pub use trace::Trace;
