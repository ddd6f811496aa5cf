// The slots of a trace and its starting rows.
ghost use Rattle.std.specs.Prelude.{◌≤◌};
ghost use Rattle.rows.specs.Rows.{rows_of, SortedRows};
ghost use Rattle.trace_events.specs.Events.{events_of};
ghost use Rattle.slots_plan.specs.Inner.{HasSlots};

use order_run::{event_work, operation_of};
use rows::Rows;
use rows_search::put;
use trace_events::Trace;

// The starting rows, and each row that an event may put in.
pub fn slots_of(t: Trace, start: Rows) -> Rows
    requires { (start.len ≤ 256) × SortedRows (rows_of start) }
    ensures { (result.len ≤ 512) × HasSlots (events_of t) (rows_of start) (rows_of result) }
{
    let mut slots = start;
    for e in 0..256 {
        let operation = operation_of(e < t.len, t.events[e]);
        let work = event_work(operation);
        let Some(row) = work.put else { continue };
        put(&mut slots, row);
    }
    slots
}
