// What each event is to the list.
ghost use Rattle.std.specs.Prelude.{◌≡◌, ℕ, ◌<◌, ◌≤◌, length, get_or};
ghost use Rattle.flow_table.specs.FlowTable.{effect_of};
ghost use Rattle.commuting.specs.InnerFootprints.{NarrowEffect};
ghost use Rattle.trace_events.specs.Events.{events_of, event_at};
ghost use Rattle.list_verdicts.specs.Inner.{no_use, table_use};

use flow_table::Operation;
use list_verdicts::{TableUse, use_of};
use trace_events::Trace;

pub(crate) fn all_uses(t: Trace) -> [TableUse; 256]
    requires { t.len ≤ 256 }
    ensures { (length result ≡ 256) × ((k : ℕ) → k < t.len → get_or result k no_use ≡ table_use (event_at (events_of t) k).operation)
        × ((k : ℕ) → k < t.len → NarrowEffect (effect_of (event_at (events_of t) k).operation)) }
{
    let n = t.len;
    let none = use_of(Operation::Other);
    let mut all = [none; 256];
    for k in 0..n {
        let event = t.events[k];
        let o = event.operation;
        all[k] = use_of(o);
    }
    all
}
