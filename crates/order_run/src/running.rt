// The events of an order, taken from the front.
ghost use Rattle.std.specs.Prelude.{◌≡◌, cond, ◌+◌, ◌<◌, ◌≤◌, length};
ghost use Rattle.flow_table.specs.FlowTable.{effect_of};
ghost use Rattle.flow_table.specs.Switches.{switch_of};
ghost use Rattle.rows.specs.Rows.{rows_of, SortedRows};
ghost use Rattle.rows_step.specs.Inner.{work_of};
ghost use Rattle.rows_step.specs.Stepping.{step_rows, answer_rows};
ghost use Rattle.trace_events.specs.Events.{events_of};
ghost use Rattle.order_run.specs.Inner.{RunsTo};

use flow_table::{Answer, Operation, effect_of};
use replay_answers::{Kept, no_answers};
use rows::Rows;
use rows_search::put;
use rows_step::{Work, pass, work_of};
use trace_events::{Event, Trace, switch_of};

// The rows that an order leaves, and the answer of each event under its number.
#[derive(Clone, Copy)]
pub struct Ran {
    pub rows: Rows,
    pub answers: [Kept; 256],
}

// What an event does; nothing where the trace has no such event.
pub fn operation_of(present: bool, event: Event) -> Operation
    ensures { result ≡ cond present event.operation Operation.Other }
{
    if present {
        event.operation
    } else {
        Operation::Other
    }
}

// The work of an event, by its switch and what it does to that switch's table.
pub fn event_work(o: Operation) -> Work
    ensures { result ≡ work_of (switch_of o) (effect_of o) }
{
    work_of(switch_of(o), effect_of(o))
}

// One event: one pass over the rows in place, and then at most one row put at its place. Its answer.
fn step(rows: &mut Rows, operation: Operation) -> Answer
    requires { (rows.old.len < 512) × SortedRows (rows_of rows.old) }
    ensures step { (rows_of rows.new ≡ step_rows operation (rows_of rows.old)) × (result ≡ answer_rows operation (rows_of rows.old)) }
    ensures few { rows.new.len ≤ rows.old.len + 1 }
{
    let work = event_work(operation);
    let n = rows.len;
    let passed = pass(&mut rows.rows, n, work);
    rows.len = passed.len;
    if !passed.met {
        if let Some(row) = work.put {
            put(rows, row);
        }
    }
    passed.answer
}

// Each event meets the rows that the one before it left.
pub fn run(t: Trace, start: Rows, order: &[u8]) -> Ran
    requires { (start.len ≤ 256) × (length order.now ≤ 256) × (SortedRows (rows_of start)) }
    ensures { RunsTo (events_of t) order.now start result }
{
    let mut rows = start;
    let mut answers = no_answers();
    for &e in order {
        let e = e as usize;
        let operation = operation_of(e < t.len, t.events[e]);
        answers[e] = Kept {
            answer: step(&mut rows, operation),
        };
    }
    Ran { rows, answers }
}
