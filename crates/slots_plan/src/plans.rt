// The plans of the events.
ghost use Rattle.std.specs.Prelude.{◌≡◌, ◌≤◌};
ghost use Rattle.rows.specs.Rows.{rows_of, SortedRows};
ghost use Rattle.trace_events.specs.Events.{events_of};
ghost use Rattle.slots.specs.Inner.{PutPlanned};
ghost use Rattle.slots_plan.specs.Inner.{SlotFound, PutsFound, reply_of, Planned};

use crate::slot::slot_of;
use flow_table::Answer;
use order_run::{event_work, operation_of};
use rows::{Row, Rows};
use rows_step::Work;
use slots::{Plan, Put, Reply};
use trace_events::Trace;

// What an event answers, by the answer to begin with.
fn reply_of(answer: Answer) -> Reply
    ensures { result ≡ reply_of answer }
{
    match answer {
        Answer::Silent => Reply::Silent,
        Answer::Miss => Reply::Best,
        Answer::Hit(_, _, _) | Answer::Done(_) => Reply::Done,
    }
}

// The slot of the row that is put in, with its action.
fn put_of(slots: &Rows, put: Option<Row>) -> Option<Put>
    requires few { slots.now.len ≤ 512 }
    requires sorted { SortedRows (rows_of slots.now) }
    requires found { SlotFound put (rows_of slots.now) }
    ensures { PutPlanned (rows_of slots.now) put result }
{
    match put {
        Some(row) => {
            let slot = slot_of(slots, &row);
            Some(Put {
                slot,
                action: row.entry.action,
            })
        }
        None => None,
    }
}

// The plan of a work.
fn plan_of(slots: &Rows, work: Work) -> Plan
    requires few { slots.now.len ≤ 512 }
    requires sorted { SortedRows (rows_of slots.now) }
    requires found { SlotFound work.put (rows_of slots.now) }
    ensures change { result.change ≡ work.change }
    ensures put { PutPlanned (rows_of slots.now) work.put result.put }
    ensures reply { result.reply ≡ reply_of work.answer }
{
    Plan {
        change: work.change,
        put: put_of(slots, work.put),
        reply: reply_of(work.answer),
    }
}

// The plan of each event; past the last, of one that does nothing.
pub fn plans_of(t: Trace, slots: Rows) -> [Plan; 256]
    requires { (slots.len ≤ 512) × SortedRows (rows_of slots) × PutsFound (events_of t) (rows_of slots) }
    ensures { Planned (events_of t) (rows_of slots) result }
{
    let mut plans = [Plan::idle(); 256];
    for e in 0..256 {
        let operation = operation_of(e < t.len, t.events[e]);
        let work = event_work(operation);
        plans[e] = plan_of(&slots, work);
    }
    plans
}
