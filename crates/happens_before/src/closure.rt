// The rows of happens-before: row j is the set of the events before event j.
ghost use Rattle.std.specs.Prelude.{◌≡◌, true, ◌≤◌};
ghost use Rattle.trace_events.specs.Events.{events_of};
ghost use Rattle.happens_before.specs.Inner.{bit, HappensBefore, search_from};

use crate::sets::join_if;
use bit_sets::contains;
use trace_events::{Side, Trace};

// For each event the set of those before it: the union of its direct predecessors and their rows, which are filled already. Past the
// last event the rows stay empty. Both loops stand here, since an inner call would copy the events at each turn; the two sides
// tell whether there is a step by a barrier or the clocks, and of most pairs that no token passes. `barred`: some event before j is a
// barrier; `earliest`: no event before j that a switch handles has a lower `to`. A call's set goes through `next`: laid straight into
// `set`, it gets no proof.
pub fn happens_before(t: Trace, delay: u32) -> [[u64; 4]; 256]
    requires { t.len ≤ 256 }
    ensures { HappensBefore delay (events_of t) result }
{
    let mut rows = [[0; 4]; 256];
    let mut sides = [Side::none(); 256];
    let mut barred = false;
    let mut earliest = u32::MAX;
    for j in 0..t.len {
        let second = t.events[j];
        let later = second.side();
        let mut set = [0; 4];
        for k in search_from(delay, later, barred, earliest, j)..j {
            if sides[k].steps_to(later, delay) {
                let next = join_if(set, rows[k], k as u8, true);
                set = next;
                continue;
            }
            if !sides[k].may_pass_to(later) {
                continue;
            }
            let passes = t.events[k].head.passes_to(second.head);
            let next = join_if(set, rows[k], k as u8, passes);
            set = next;
        }
        rows[j] = set;
        sides[j] = later;
        barred |= later.barrier;
        earliest = earlier_of(earliest, later);
    }
    rows
}

// Where the search for the direct predecessors of event j begins: at j, so that there is none, where it takes in no token, neither it
// nor an earlier event is a barrier, and none that a switch handles is early enough for the time rule.
fn search_from(delay: u32, later: Side, barred: bool, earliest: u32, j: usize) -> usize
    ensures { result ≡ search_from delay later barred earliest j }
{
    if later.takes
        | (barred | later.barrier)
        | (u64::from(earliest) + u64::from(delay) < u64::from(later.from))
    {
        0
    } else {
        j
    }
}

// The lower of a time and the event's `to`, where a switch handles the event.
fn earlier_of(earliest: u32, side: Side) -> u32
    ensures { (result ≤ earliest) × (side.handled ≡ true → result ≤ side.to) }
{
    if side.handled {
        earliest.min(side.to)
    } else {
        earliest
    }
}

// Event i is in the row of event j: it happens before it.
pub fn is_before(rows: &[[u64; 4]; 256], i: u8, j: u8) -> bool
    ensures { result ≡ bit rows.now i j }
{
    contains(rows[usize::from(j)], usize::from(i))
}
