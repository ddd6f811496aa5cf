// An event on slots: what it answers, what becomes of the slots that it asks about, and the slot that it puts in.
ghost use Rattle.std.specs.Prelude.{◌≡◌, not, ◌&&◌, ◌||◌, cond, None, List, ℕ};
ghost use Rattle.bit_sets.specs.Inner.{member};
ghost use Rattle.rows_step.specs.Inner.{is_dropped};
ghost use Rattle.slots.specs.Inner.{assigned, put_at, put_action};
ghost use Rattle.slots_run.specs.Types.{Operation, Row};
ghost use Rattle.slots_run.specs.Inner.{Written, Answers, Moment, StepsTo};

use crate::lookup::look_up;
use bit_sets::{common, members_of, next, with, without};
use flow::Action;
use flow_table::Answer;
use rows_step::Change;
use slots::{Plan, Put, Reply};

// The slots held after an event, and its answer.
#[derive(Clone, Copy)]
pub struct Stepped {
    pub set: [u64; 8],
    pub answer: Answer,
}

// The answer of a plan, by whether a slot held is asked about.
fn answer_of(
    reply: Reply,
    met: bool,
    fitting: [u64; 8],
    priorities: &[u16; 512],
    actions: &[Action; 512],
) -> Answer
    ensures { Answers reply met fitting priorities.now actions.now result }
{
    match reply {
        Reply::Silent => Answer::Silent,
        Reply::Best => look_up(fitting, priorities, actions),
        Reply::Done => Answer::Done(!met),
    }
}

// The slots of the mask are dropped, or none is.
fn left_of(change: Change, set: [u64; 8], mask: [u64; 8]) -> [u64; 8]
    ensures { (i : ℕ) → member result i ≡ (member set i && not (is_dropped change (member mask i))) }
{
    match change {
        Change::Drop => without(set, mask),
        Change::Keep | Change::Assign(_) => set,
    }
}

// The slots that fit are assigned, or none is.
fn assign(change: Change, fitting: [u64; 8], actions: &mut [Action; 512])
    ensures { Written (λ i. assigned change (member fitting i)) actions.old actions.new }
{
    if let Change::Assign(action) = change {
        for i in members_of(fitting) {
            actions[i] = action;
        }
    }
}

// The slot that is put in, or none.
fn put_unless(met: bool, put: Option<Put>) -> Option<Put>
    ensures { result ≡ cond met None put }
{
    if met { None } else { put }
}

fn with_slot(put: Option<Put>, set: [u64; 8]) -> [u64; 8]
    ensures { (i : ℕ) → member result i ≡ (put_at put i || member set i) }
{
    match put {
        Some(p) => with(set, p.slot),
        None => set,
    }
}

fn with_action(put: Option<Put>, actions: &mut [Action; 512])
    ensures { Written (put_action put) actions.old actions.new }
{
    if let Some(p) = put {
        actions[p.slot] = p.action;
    }
}

pub(crate) fn step(
    mask: [u64; 8],
    plan: Plan,
    priorities: &[u16; 512],
    set: [u64; 8],
    actions: &mut [Action; 512],
) -> Stepped
    ensures { (slots : List Row) (o : Operation) → Moment slots o mask plan priorities.now set → StepsTo slots o set actions.old actions.new result }
{
    let fitting = common(set, mask);
    let met = next(fitting, 0).is_some();
    let answer = answer_of(plan.reply, met, fitting, priorities, actions);
    let left = left_of(plan.change, set, mask);
    assign(plan.change, fitting, actions);
    let put = put_unless(met, plan.put);
    with_action(put, actions);
    let held = with_slot(put, left);
    Stepped { set: held, answer }
}
