// The rows of a text's lines, put in order.
#![tactic(auto)]

ghost use Rattle.std.specs.Prelude.{◌≤◌, IfOk};
ghost use Rattle.rows.specs.Rows.{rows_of};
ghost use Rattle.rows_sort.specs.Sorting.{sort_rows, Sorts};

use rows::Rows;
use rows_search::{insert_at, place_of};

// The rows in order; or the first line whose switch and key stood on an earlier line. Each line's row is put in among those of the
// lines before it.
pub fn sort(lines: Rows) -> Result<Rows, usize>
    requires { lines.len ≤ 512 }
    ensures sorts { Sorts result (sort_rows (rows_of lines)) }
    ensures few { IfOk result (λ sorted. sorted.len ≤ lines.len) }
{
    let mut rows = lines.rows;
    for i in 0..lines.len {
        let row = rows[i];
        let Err(at) = place_of(&rows[..i], &row) else {
            return Err(i);
        };
        insert_at(&mut rows, i, at, row);
    }
    Ok(Rows {
        rows,
        len: lines.len,
    })
}
