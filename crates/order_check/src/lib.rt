// Whether an order of a trace's events is accepted: none missing, and none before one that happens before it; and
// the recorded order.
#![tactic(auto)]

pub mod accepting;
pub mod completeness;
pub mod recorded;
pub mod search;

pub use accepting::check_order;
pub use completeness::is_complete;
pub use recorded::recorded_order;
pub use search::first_early;
