// The lines of the listed pairs.
ghost use Rattle.std.specs.Prelude.{ℕ, ◌<◌, ◌≤◌, ◌^◌, length, get_or};
ghost use Rattle.text_numbers.specs.Inner.{Put};
ghost use Rattle.trace_events.specs.Events.{event_at, events_of};
ghost use Rattle.trace_line.specs.Written.{EventInRange};
ghost use Rattle.page_text.specs.Inner.{pairs_text};

use page_lines::{pair_line, put_pair_line};
use trace_events::Trace;

// A line for each pair of a list, two bytes a pair, each an event of the trace.
pub fn put_pairs(out: &mut [u8], t: Trace, list: &[u8]) -> usize
    requires len_bound { (t.len ≤ 256) × (length list.now ≤ 131072) }
    requires by_index { (k : ℕ) → k < length list.now → get_or list.now k 0 < t.len }
    requires by_index_2 { (i : ℕ) → EventInRange (event_at (events_of t) i) }
    ensures put { Put (pairs_text (events_of t) list.now) 0 out.old result out.new }
    ensures upper_bound { result < 2 ^ 30 }
{
    let mut at = 0;
    let mut left = list;
    while let [lower, higher, rest @ ..] = left {
        let a = t.events[*lower as usize];
        let b = t.events[*higher as usize];
        let line = pair_line(*lower, a.operation, *higher, b.operation);
        at = put_pair_line(out, at, line);
        left = rest;
    }
    at
}
