// The answer of an event so far, row by row.
ghost use Rattle.std.specs.Prelude.{◌≡◌, cond, ◌+◌, ◌<◌, ◌≤◌};
ghost use Rattle.rows_step.specs.Inner.{counted, seen};

use flow_table::Answer;
use rows::Row;
use std::cmp::Ordering;

// The answer after one more row that passes. A packet's: a higher priority begins anew, the same is counted, a lower one is passed
// over. A checked add's: it is not done.
fn seen(answer: Answer, row: Row) -> Answer
    requires { counted answer < 512 }
    ensures { (result ≡ seen answer row.entry) × (counted result ≤ counted answer + 1) }
{
    let priority = row.entry.key.priority;
    let action = row.entry.action;
    match answer {
        Answer::Silent => answer,
        Answer::Done(_) => Answer::Done(false),
        Answer::Miss => Answer::Hit(priority, 1, action),
        Answer::Hit(best, count, first) => match best.cmp(&priority) {
            Ordering::Less => Answer::Hit(priority, 1, action),
            Ordering::Equal => Answer::Hit(best, count + 1, first),
            Ordering::Greater => answer,
        },
    }
}

// The answer after one more row.
pub fn noted(answer: Answer, passes: bool, row: Row) -> Answer
    requires { counted answer < 512 }
    ensures { (result ≡ cond passes (seen answer row.entry) answer) × (counted result ≤ counted answer + 1) }
{
    if passes { seen(answer, row) } else { answer }
}
