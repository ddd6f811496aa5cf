// What the programs print of a refusal, put into a buffer: `refused=4 place=2`, and the refused line where the place is one.
#![tactic(auto)]

ghost use Rattle.std.specs.Prelude.{[], ◌∷◌, ◌++◌, ◌≡◌, ◌+◌, ◌≤◌, ◌<◌, ◌^◌, length};
ghost use Rattle.text_numbers.specs.Inner.{Put};
ghost use Rattle.refusals_text.specs.Report.{key_number, refusal_line, refused_text};

use refusals::{Refusal, Source, refused_line};
use text_numbers::{put_byte, put_bytes, put_number};

// A key and its number.
pub fn put_key_number(out: &mut [u8], at: usize, key: &[u8], v: usize) -> usize
    requires { (at < 2 ^ 31) × (length key.now ≤ 16) }
    ensures put { Put (key_number key.now v) at out.old result out.new }
    ensures upper_bound { result ≤ at + 36 }
{
    let n = put_bytes(out, at, key);
    put_number(out, n, v)
}

// `refused=4 place=2`
fn put_refusal(out: &mut [u8], refusal: Refusal) -> usize
    ensures put { Put (refusal_line refusal) 0 out.old result out.new }
    ensures upper_bound { result ≤ 74 }
{
    let returned = refusal.returned();
    let n = put_key_number(out, 0, b"refused=", returned.number as usize);
    let m = put_key_number(out, n, b" place=", returned.place);
    put_byte(out, m, b'\n');
    m + 1
}

// A line and its LF.
fn put_line(out: &mut [u8], at: usize, line: &[u8]) -> usize
    requires { (at ≤ 74) × (length line.now < 2 ^ 63) }
    ensures { Put (line.now ++ (10 ∷ [])) at out.old result out.new }
{
    let n = put_bytes(out, at, line);
    put_byte(out, n, b'\n');
    n + 1
}

// A refusal, with the refused line, a part of the trace or of the tables, where there is one.
pub fn refused<'a>(out: &mut [u8], trace: &'a [u8], tables: &'a [u8], refusal: Refusal) -> usize
    ensures { Put (refused_text trace.now tables.now refusal) 0 out.old result out.new }
{
    let n = put_refusal(out, refusal);
    let returned = refusal.returned();
    match returned.source {
        Source::Neither => n,
        Source::Trace | Source::Tables => put_line(out, n, refused_line(trace, tables, refusal)),
    }
}
