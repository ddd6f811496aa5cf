// One line of a trace.
ghost use Rattle.std.specs.Prelude.{◌≡◌};
ghost use Rattle.trace_events.specs.Inner.{side_of};

use crate::head::Head;
use crate::side::{Side, side_of};
use flow_table::Operation;

#[derive(Clone, Copy)]
pub struct Event {
    pub head: Head,
    pub operation: Operation,
}

impl Event {
    pub fn side(self) -> Side
        ensures { result ≡ side_of self.head self.operation }
    {
        let head = self.head;
        let o = self.operation;
        side_of(head, o)
    }
}
