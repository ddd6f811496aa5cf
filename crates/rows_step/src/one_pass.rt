// One pass over rows.
ghost use Rattle.std.specs.Prelude.{◌≡◌, ◌≤◌, length, take};
ghost use Rattle.rows.specs.Rows.{any_row};
ghost use Rattle.rows_step.specs.Inner.{changed, counted, seen_rows, chosen};

use crate::answers::noted;
use crate::work::{Work, next_free};
use flow_table::Answer;
use rows::Row;

// How many rows a pass leaves, whether a row passed, and the answer.
#[derive(Clone, Copy)]
pub struct Passed {
    pub len: usize,
    pub met: bool,
    pub answer: Answer,
}

// Each of the first n rows is asked; those that are not dropped are stored in place, from the front.
pub fn pass(rows: &mut [Row], n: usize, work: Work) -> Passed
    requires few { n ≤ 512 }
    requires there { n ≤ length rows.old }
    requires fresh { counted work.answer ≡ 0 }
    ensures rows { take result.len rows.new ≡ changed work.change (chosen work) (take n rows.old) }
    ensures met { result.met ≡ any_row (chosen work) (take n rows.old) }
    ensures answer { result.answer ≡ seen_rows (chosen work) work.answer (take n rows.old) }
    ensures few { result.len ≤ n }
{
    let first = work.filter.first(n);
    let mut len = first;
    let mut met = false;
    let mut answer = work.answer;
    for i in first..n {
        let row = rows[i];
        let passes = row.passes(work.switch, work.filter);
        rows[len] = work.change.treated(passes, row);
        len = next_free(len, work.change.drops(passes));
        answer = noted(answer, passes, row);
        met |= passes;
    }
    Passed { len, met, answer }
}
