// The normal form of a table text: switches rising, then table order.
ghost use Rattle.std.specs.Prelude.{◌≡◌, ◌≤◌, length};
ghost use Rattle.refusals.specs.Checks.{written};
ghost use Rattle.rows.specs.Rows.{rows_of};
ghost use Rattle.tables_normal.specs.Normal.{normalised, normal_answer};
ghost use Rattle.tables_normal.specs.Inner.{fitting_text, RowsInRange};

use crate::write::{normal_length, write_normal};
use refusals::Refusal;
use rows::Rows;
use tables_text::read_tables;

// The text of the rows, at the front of an output that has room for it.
fn put_normal(out: &mut [u8], rows: Rows) -> Result<usize, Refusal>
    requires few { rows.len ≤ 512 }
    requires range { RowsInRange (rows_of rows) }
    ensures value { result ≡ normal_answer (fitting_text (length out.old) (rows_of rows)) }
    ensures out_after { out.new ≡ written (fitting_text (length out.old) (rows_of rows)) out.old }
{
    // A line has at most 115 bytes: where each row has that room the text fits, and is not counted first.
    if 115 * rows.len <= out.len() {
        return Ok(write_normal(out, rows));
    }
    let needed = normal_length(rows);
    if out.len() < needed {
        return Err(Refusal::TablesShort(needed));
    }
    Ok(write_normal(out, rows))
}

// The normal form of a table text, at the front of the output. The bytes past it, or all after a refusal, stay as they were.
#[tactic(auto, unfolding(crate::specs::Normal::normalised))]
pub fn normalise(tables: &[u8], out: &mut [u8]) -> Result<usize, Refusal>
    ensures value { result ≡ normal_answer (normalised tables.now (length out.old)) }
    ensures out_after { out.new ≡ written (normalised tables.now (length out.old)) out.old }
{
    let rows = read_tables(tables)?;
    put_normal(out, rows)
}
