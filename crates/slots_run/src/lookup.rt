// What a packet meets among the slots held.
ghost use Rattle.std.specs.Prelude.{◌≡◌, ◌+◌, ◌<◌, ◌≤◌};
ghost use Rattle.flow_table.specs.FlowTable.{entry};
ghost use Rattle.rows_step.specs.Inner.{counted, seen};
ghost use Rattle.slots_run.specs.Types.{Key};
ghost use Rattle.slots_run.specs.Inner.{Found};

use bit_sets::members_of;
use flow::Action;
use flow_table::Answer;
use std::cmp::Ordering;

// The answer after one more entry that fits: a higher priority begins anew, the same is counted, a lower one is passed over.
fn seen(answer: Answer, priority: u16, action: Action) -> Answer
    requires { counted answer < 512 }
    ensures { ((k : Key) → k.priority ≡ priority → result ≡ seen answer (entry k action)) × (counted result ≤ counted answer + 1) }
{
    match answer {
        Answer::Silent => answer,
        Answer::Done(_) => Answer::Done(false),
        Answer::Miss => Answer::Hit(priority, 1, action),
        Answer::Hit(best, count, first) => match best.cmp(&priority) {
            Ordering::Less => Answer::Hit(priority, 1, action),
            Ordering::Equal => Answer::Hit(best, count + 1, first),
            Ordering::Greater => answer,
        },
    }
}

// The slots that fit, from the first on.
pub(crate) fn look_up(fitting: [u64; 8], priorities: &[u16; 512], actions: &[Action; 512]) -> Answer
    ensures { Found fitting priorities.now actions.now result }
{
    let mut answer = Answer::Miss;
    for i in members_of(fitting) {
        let more = seen(answer, priorities[i], actions[i]);
        answer = more;
    }
    answer
}
