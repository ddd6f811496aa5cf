// The four counts, a line each.
ghost use Rattle.std.specs.Prelude.{[], ◌∷◌, ◌++◌, ◌+◌, ◌≤◌, ◌<◌, ◌^◌, length};
ghost use Rattle.text_numbers.specs.Inner.{Put};
ghost use Rattle.text_lines.specs.Lines.{unlines};
ghost use Rattle.page_text.specs.Page.{count_text, count_texts};

use call_answers::Counts;
use page_columns::put_number_right;
use text_numbers::{put_byte, put_bytes};

// A name and its number, to column 60, and the LF.
fn put_count(out: &mut [u8], at: usize, name: &[u8], v: usize) -> usize
    requires { (at < 2 ^ 30 + 1000) × (length name.now ≤ 20) }
    ensures put { Put (count_text name.now v ++ (10 ∷ [])) at out.old result out.new }
    ensures upper_bound { result ≤ at + 101 }
{
    let n = put_bytes(out, at, name);
    let m = put_number_right(out, n, 60 - name.len(), v);
    put_byte(out, m, b'\n');
    m + 1
}

pub fn put_counts(out: &mut [u8], at: usize, c: Counts) -> usize
    requires { at < 2 ^ 30 }
    ensures { Put (unlines (count_texts c)) at out.old result out.new }
{
    let n = put_count(out, at, b"pairs", c.pairs);
    let n = put_count(out, n, b"ordered", c.ordered);
    let n = put_count(out, n, b"commuting", c.commuting);
    put_count(out, n, b"listed", c.listed)
}
