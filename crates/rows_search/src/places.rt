// Rows in order: where a row stands or goes, and a row put in.
ghost use Rattle.std.specs.Prelude.{◌≡◌, ◌+◌, ◌<◌, ◌≤◌, length, take, drop, IfOk, IfErr};
ghost use Rattle.std.specs.List.{insert};
ghost use Rattle.rows.specs.Rows.{rows_of, SortedRows, insert_row};
ghost use Rattle.rows_search.specs.Inner.{StandsAt, GoesTo};

use rows::{Row, Rows};

// Where a row with this one's switch and key stands among rows in order; or, where none does, where this one goes.
pub fn place_of(rows: &[Row], row: &Row) -> Result<usize, usize>
    requires { SortedRows rows.now }
    ensures stands { IfOk result (StandsAt row.now rows.now) }
    ensures goes { IfErr result (GoesTo row.now rows.now) }
{
    rows.binary_search_by(|x| x.order(*row))
}

// Puts the row in at `at` among the first n: those from there on move up by one.
pub fn insert_at(rows: &mut [Row], n: usize, at: usize, row: Row)
    requires { (at ≤ n) × (n < length rows.old) }
    ensures first { take (n + 1) rows.new ≡ insert (take n rows.old) at row }
    ensures rest { drop (n + 1) rows.new ≡ drop (n + 1) rows.old }
    ensures len { length rows.new ≡ length rows.old }
{
    rows[n] = row;
    rows[at..=n].rotate_right(1);
}

// Puts the row in at its place, over the one with its switch and key if there is one.
pub fn put(rows: &mut Rows, row: Row)
    requires { (rows.old.len < 512) × SortedRows (rows_of rows.old) }
    ensures put { rows_of rows.new ≡ insert_row row (rows_of rows.old) }
    ensures few { rows.new.len ≤ rows.old.len + 1 }
{
    let n = rows.len;
    match place_of(&rows.rows[..n], &row) {
        Ok(at) => rows.rows[at] = row,
        Err(at) => {
            insert_at(&mut rows.rows, n, at, row);
            rows.len = n + 1;
        }
    }
}
