// Normalises the table texts of its data files, and each accepted one again into a buffer that is a byte too short for it.
// What must come out is in the file `stdout`.
#![tactic(auto)]

use refusals::Refusal;
use std::rt::Files;

// The numbered files: 00 to 03 the same rules in four orders; 04 no line, 05 one, 06 256 lines; 07 to 14 refusals 13, 16, 11, 12 and 14
// by their lines; 15 to 19 address bits, and 14, 15 and 16 in their order; the rest malformed lines.
const CASES: u8 = 42;

// An answer: the normal text, or the refusal.
fn answer<R: Print + Eprint>(rt: &R, tables: &[u8], a: Result<usize, Refusal>, out: &[u8]) {
    match a {
        Ok(n) => {
            program_output::write(rt, text_lines::front(out, n));
        }
        Err(e) => {
            program_output::write_refused(rt, b"", tables, e);
        }
    }
}

fn normalise_into<R: Print + Eprint>(rt: &R, tables: &[u8], out: &mut [u8]) {
    let a = tables_normal::normalise(tables, out);
    answer(rt, tables, a, out);
}

// Into an output of that length.
fn normalise_within<R: Print + Eprint>(rt: &R, tables: &[u8], out: &mut [u8], room: usize) {
    if room <= out.len() {
        normalise_into(rt, tables, &mut out[..room]);
    }
}

// Into an output with room for all, and then into one that is a byte too short for an accepted text.
fn normalise_twice<R: Print + Eprint>(rt: &R, tables: &[u8], out: &mut [u8]) {
    normalise_into(rt, tables, out);
    if let Ok(n) = tables_normal::normalise(tables, out) {
        if 0 < n {
            normalise_within(rt, tables, out, n - 1);
        }
    }
}

fn read_file<R: Files + Print + Eprint>(rt: &R, path: &[u8]) {
    let mut buf = [0u8; 65536];
    if let Some(n) = program_input::read_file(rt, path, &mut buf) {
        let mut out = [0u8; 65536];
        normalise_twice(rt, &buf[..n], &mut out);
    }
}

fn run<R: Files + Print + Eprint>(rt: &R, path: &[u8]) {
    program_output::write(rt, b"text ");
    program_output::write(rt, path);
    program_output::end_line(rt);
    read_file(rt, path);
}

// The file that a number below 100 names by its two digits.
fn numbered<R: Files + Print + Eprint>(rt: &R, i: u8) {
    let name = [b'0' + i / 10 % 10, b'0' + i % 10];
    run(rt, &name);
}

fn main(rt: HostRuntime) {
    run(&rt, b"hall");
    run(&rt, b"hall_typed_anew");
    run(&rt, b"hall_one_rule_changed");
    for i in 0..CASES {
        numbered(&rt, i);
    }
}
