// The slots that each event asks about.
ghost use Rattle.std.specs.Prelude.{◌≡◌, ◌&&◌, ◌||◌, ℕ, ◌<◌, ◌≤◌, eqb, length};
ghost use Rattle.bit_sets.specs.Inner.{member};
ghost use Rattle.rows.specs.Rows.{rows_of};
ghost use Rattle.trace_events.specs.Events.{events_of};
ghost use Rattle.slots_plan.specs.Inner.{Marked};
ghost use Rattle.slots_plan.specs.InnerAsking.{Worded};

use crate::asking::question_of;
use bit_sets::{none, with};
use flow_bits::{Bits, Word};
use order_run::{event_work, operation_of};
use rows::Rows;
use trace_events::Trace;

// The set, with i where it passes.
fn marked(set: [u64; 8], i: usize, passes: bool) -> [u64; 8]
    requires { i < 512 }
    ensures { (k : ℕ) → member result k ≡ ((passes && eqb k i) || member set k) }
{
    if passes {
        return with(set, i);
    }
    set
}

fn no_masks() -> [[u64; 8]; 256]
    ensures { length result ≡ 256 }
{
    [[0u64; 8]; 256]
}

fn no_bits() -> [Bits; 512]
    ensures { length result ≡ 512 }
{
    let none = Word { value: 0, mask: 0 };
    let bits = Bits {
        first: none,
        second: none,
        third: none,
    };
    [bits; 512]
}

// The bits of each slot's match.
fn bits_of(slots: Rows) -> [Bits; 512]
    requires { slots.len ≤ 512 }
    ensures { (length result ≡ 512) × Worded (rows_of slots) result }
{
    let n = slots.len;
    let mut all = no_bits();
    for i in 0..n {
        let x = slots.rows[i];
        let entry = x.entry;
        let key = entry.key;
        all[i] = Bits::of(key.pattern);
    }
    all
}

// For each event the set of the slots that pass its test; of none past the last. Both loops stand here, since an inner call would copy
// the slots at each turn.
pub fn masks_of(t: Trace, slots: Rows) -> [[u64; 8]; 256]
    requires { slots.len ≤ 512 }
    ensures { Marked (events_of t) (rows_of slots) result }
{
    let n = t.len;
    let len = slots.len;
    let bits = bits_of(slots);
    let mut masks = no_masks();
    for e in 0..256 {
        let event = t.events[e];
        let operation = operation_of(e < n, event);
        let work = event_work(operation);
        let switch = work.switch;
        let filter = work.filter;
        let question = question_of(filter);
        let from = filter.first(len);
        let mut mask = none();
        for i in from..len {
            let x = slots.rows[i];
            let entry = x.entry;
            let key = entry.key;
            let passes = (switch == x.switch) & question.asks(key.priority, bits[i]);
            let next = marked(mask, i, passes);
            mask = next;
        }
        masks[e] = mask;
    }
    masks
}
