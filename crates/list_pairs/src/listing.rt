// The list of a trace's events: happens-before, then one pass over the pairs. Every call that lists begins here.
ghost use Rattle.std.specs.Prelude.{◌≡◌, ◌≤◌, length};
ghost use Rattle.trace_events.specs.Events.{events_of};
ghost use Rattle.list_pairs.specs.Inner.{HoldsList};
ghost use Rattle.basics.specs.Text.{zeros};

use crate::pass::scan;
use call_answers::Counts;
use trace_events::Trace;

// Room for two bytes of each pair of 256 events, and more.
pub fn pair_room() -> [u8; 131072]
    ensures { (result ≡ zeros 131072) × (length result ≡ 131072) }
{
    [0u8; 131072]
}

// The four counts, and the list from the start of that room, under a delay.
pub fn list_of(t: Trace, delay: u32, list: &mut [u8]) -> Counts
    requires { (t.len ≤ 256) × (length list.old ≡ 131072) }
    ensures { HoldsList delay (events_of t) result list.new }
{
    let rows = happens_before::happens_before(t, delay);
    scan(t, delay, &rows, list)
}
