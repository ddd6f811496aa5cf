// Orders of a trace's events, tried: the checks in their order, then a byte an order.
ghost use Rattle.std.specs.Prelude.{◌≡◌, false, List, ℕ, ◌≤◌, length};
ghost use Rattle.basics.specs.Text.{starting_with};
ghost use Rattle.refusals.specs.Checks.{written};
ghost use Rattle.trace_events.specs.Events.{events_of};
ghost use Rattle.rows.specs.Rows.{rows_of, tables_of};
ghost use Rattle.order_meaning.specs.Orders.{from};
ghost use Rattle.order_trials.specs.Trials.{order_count, uneven, order_bytes};
ghost use Rattle.order_trials.specs.Inner.{Held};
ghost use Rattle.trials_call.specs.Tried.{tried, trials_answer};
ghost use Rattle.trials_call.specs.Types.{Event, Row};
ghost use Rattle.trials_call.specs.Inner.{tried_from, Leaves, From};

use crate::counting::{is_uneven, order_count};
use crate::trial::{Shared, trial};
use inputs::read_both;
use refusals::Refusal;
use rows::Rows;
use slots::Steps;
use trace_events::Trace;

// The bytes of m orders, from the buffer's start, by what was worked out once, and the recorded order.
fn try_each(shared: &Shared, recorded: &[u8], orders: &[u8], m: usize, out: &mut [u8])
    requires { (recorded.now ≡ from 0 shared.now.count) × (uneven shared.now.count (length orders.now) ≡ false) × (m ≡ order_count shared.now.count (length orders.now)) × (m ≤ length out.old) }
    ensures { (delay : ℕ) (es : List Event) (rs : List Row) → From delay es rs shared.now.count shared.now.earlier shared.now.steps shared.now.start → out.new ≡ starting_with (order_bytes delay es (tables_of rs) orders.now) out.old }
{
    let n = shared.count;
    let end = slots_run::run(&shared.steps, shared.start, recorded);
    for k in 0..m {
        let from = k * n;
        let to = from + n;
        let byte = trial(shared, end, &orders[from..to]);
        out[k] = byte;
    }
}

// The bytes of m orders, from the buffer's start. What they share is worked out once.
fn try_all(t: Trace, start: Rows, orders: &[u8], delay: u32, m: usize, out: &mut [u8])
    requires { (t.len ≤ 256) × (start.len ≤ 256) × Held (events_of t) (rows_of start) × (uneven t.len (length orders.now) ≡ false) × (m ≡ order_count t.len (length orders.now)) × (m ≤ length out.old) }
    ensures { out.new ≡ starting_with (order_bytes delay (events_of t) (tables_of (rows_of start)) orders.now) out.old }
{
    let earlier = happens_before::happens_before(t, delay);
    let slots = slots_plan::slots_of(t, start);
    let masks = slots_plan::masks_of(t, slots);
    let plans = slots_plan::plans_of(t, slots);
    let priorities = slots_plan::priorities_of(slots);
    let begun = slots_plan::start_of(slots, start);
    let shared = Shared {
        count: t.len,
        earlier,
        steps: Steps {
            masks,
            plans,
            priorities,
        },
        start: begun,
    };
    let recorded = order_check::recorded_order();
    try_each(&shared, &recorded[..t.len], orders, m, out);
}

// 52, 53; then the bytes.
fn try_on(
    t: Trace,
    start: Rows,
    orders: &[u8],
    delay: u32,
    out: &mut [u8],
) -> Result<usize, Refusal>
    requires { (t.len ≤ 256) × (start.len ≤ 256) × Held (events_of t) (rows_of start) }
    ensures { Leaves (tried_from delay (events_of t) (tables_of (rows_of start)) orders.now (length out.old)) result out.old out.new }
{
    let n = t.len;
    let len = orders.len();
    if is_uneven(n, len) {
        return Err(Refusal::OrdersUneven);
    }
    let m = order_count(n, len);
    if out.len() < m {
        return Err(Refusal::TrialsShort(m));
    }
    try_all(t, start, orders, delay, m, out);
    Ok(m)
}

// Orders of a trace's events end to end, one byte for each event, under a delay, from the tables of a text: a byte an order, from the buffer's start,
// and how many there are. The bytes past them, or all after a refusal, stay as they were.
pub fn try_orders(
    trace: &[u8],
    tables: &[u8],
    orders: &[u8],
    delay: u32,
    out: &mut [u8],
) -> Result<usize, Refusal>
    ensures value { result ≡ trials_answer (tried delay trace.now tables.now orders.now (length out.old)) }
    ensures out_after { out.new ≡ written (tried delay trace.now tables.now orders.now (length out.old)) out.old }
{
    let inputs = read_both(trace, tables, delay).accepted()?;
    try_on(inputs.trace, inputs.rows, orders, delay, out)
}
