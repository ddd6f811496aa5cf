// A trace: its events in an array, and how many there are. The array stands first, and in `TraceRead` the trace, because of where copies
// of a trace then lie (docs/MEASUREMENTS.md, "Copies").
ghost use Rattle.std.specs.Prelude.{◌≡◌};
ghost use Rattle.trace_events.specs.Events.{no_trace};

use crate::event::Event;
use crate::head::Head;
use flow_table::Operation;

#[derive(Clone, Copy)]
pub struct Trace {
    pub events: [Event; 256],
    pub len: usize,
}

impl Trace {
    // No events: all that the array holds is `oth` without tokens.
    pub fn empty() -> Trace
        ensures { result ≡ no_trace }
    {
        let head = Head::empty();
        let idle = Event {
            head,
            operation: Operation::Other,
        };
        let events = [idle; 256];
        Trace { events, len: 0 }
    }
}
