// What the programs write on standard output. What can't be written is said on standard error.
#![tactic(auto)]

use refusals::Refusal;
use std::io;

// Whether all was written; where not, says so on standard error.
fn is_written<R: Eprint>(rt: &R, written: io::Result<()>) -> bool {
    match written {
        Ok(()) => true,
        Err(e) => {
            let _ = eprintln!(rt; "standard output: {e}");
            false
        }
    }
}

// A text; whether all of it was written.
pub fn write<R: Print + Eprint>(rt: &R, text: &[u8]) -> bool {
    is_written(rt, rt.write_all(text))
}

// A name, and then a number.
pub fn field<R: Print + Eprint>(rt: &R, name: &[u8], n: u64) {
    if write(rt, name) {
        is_written(rt, rt.print(n));
    }
}

pub fn end_line<R: Print + Eprint>(rt: &R) {
    write(rt, b"\n");
}

// A refusal, with the refused line where there is one: at most 65,536 bytes of a line and 37 before it.
pub fn write_refused<'a, R: Print + Eprint>(
    rt: &R,
    trace: &'a [u8],
    tables: &'a [u8],
    refusal: Refusal,
) {
    let mut text = [0u8; 65600];
    let n = refusals_text::refused(&mut text, trace, tables, refusal);
    write(rt, text_lines::front(&text, n));
}
