// Rows as text, a line for each.
ghost use Rattle.std.specs.Prelude.{◌≡◌, [], ◌∷◌, ◌++◌, ◌≤◌, length};
ghost use Rattle.text_numbers.specs.Inner.{Put};
ghost use Rattle.rows.specs.Rows.{rows_of};
ghost use Rattle.tables_text.specs.TableText.{print_row};
ghost use Rattle.tables_normal.specs.Normal.{normal_text};

use rows::{Row, Rows};
use text_numbers::{put_bytes, put_number};
use text_put_fields::put_entry;

// A row and the LF that ends its line, from the front of what is left of the output.
fn put_row(rest: &mut [u8], row: Row) -> usize
    ensures { Put (print_row row ++ (10 ∷ [])) 0 rest.old result rest.new }
{
    let a = put_bytes(rest, 0, b"sw=");
    let b = put_number(rest, a, row.switch as usize);
    let c = put_entry(rest, b, row.entry);
    put_bytes(rest, c, b"\n")
}

// The lines of the rows, each written into the rest of the output. What lies past the output's end is dropped and counts all the same.
pub fn write_normal(out: &mut [u8], rows: Rows) -> usize
    requires { rows.len ≤ 512 }
    ensures { Put (normal_text (rows_of rows)) 0 out.old result out.new }
{
    let mut at: usize = 0;
    for row in &rows.rows[..rows.len] {
        let from = at.min(out.len());
        let more = put_row(&mut out[from..], *row);
        at += more;
    }
    at
}

// How long the text of the rows is: what a writer into no room counts.
pub fn normal_length(rows: Rows) -> usize
    requires { rows.len ≤ 512 }
    ensures { result ≡ length (normal_text (rows_of rows)) }
{
    let mut none = [0u8; 1];
    write_normal(&mut none, rows)
}
