// A table text as the rows of its lines, sorted by switch and then in table order.
ghost use Rattle.std.specs.Prelude.{◌≡◌, ◌≤◌, length, Some, Err};
ghost use Rattle.text_lines.specs.Lines.{lines};
ghost use Rattle.refusals.specs.Checks.{refuse_limit};
ghost use Rattle.rows.specs.Rows.{rows_of};
ghost use Rattle.tables_text.specs.TableText.{read_tables};
ghost use Rattle.tables_text.specs.Inner.{read_rows, sorted_rows, TablesOf};

use crate::line::row_line;
use crate::store::no_rows;
use refusals::Refusal;
use rows::Rows;
use text_lines::Limit;
use text_reader::LineReader;

// The refusal of a text that exceeds a limit.
fn refused(limit: Limit) -> Refusal
    ensures { refuse_limit (Some limit) Refusal.TablesTooLong Refusal.TablesUnended Refusal.TablesTooManyLines ≡ Err result }
{
    match limit {
        Limit::TooLong => Refusal::TablesTooLong,
        Limit::Unended => Refusal::TablesUnended,
        Limit::TooManyLines => Refusal::TablesTooManyLines,
    }
}

// The rows of the lines, in the order of the lines.
fn read_rows(text: &[u8]) -> Result<Rows, Refusal>
    requires { length (lines text.now) ≤ 256 }
    ensures { TablesOf (read_rows text.now) result }
{
    let mut rows = no_rows();
    for line in LineReader::new(text) {
        let k = rows.len;
        rows.rows[k] = row_line(line, k)?;
        rows.len = k + 1;
    }
    Ok(rows)
}

// The rows of the lines, in order.
fn sort_rows(lines: Rows) -> Result<Rows, Refusal>
    requires { lines.len ≤ 256 }
    ensures { TablesOf (sorted_rows (rows_of lines)) result }
{
    rows_sort::sort(lines).map_err(Refusal::KeyTwice)
}

// The rows of a text, in order, or the first refusal.
#[tactic(auto, unfolding(crate::specs::TableText::read_tables))]
pub fn read_tables(text: &[u8]) -> Result<Rows, Refusal>
    ensures { TablesOf (read_tables text.now) result }
{
    if let Some(limit) = text_lines::limit_of(text) {
        return Err(refused(limit));
    }
    sort_rows(read_rows(text)?)
}
