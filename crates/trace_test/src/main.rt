// Reads the trace texts of its data files: the number of events, or the refusal with the refused line. What must come out is in the
// file `stdout`.
#![tactic(auto)]

use program_delay::DELAY;
use std::rt::Files;

// The files 000 and on: accepted texts; then refusals 1, 2 and 3; then malformed lines, item by item; then 5, 6, 7, 8 and texts with
// several faults; from 169 on clocks.
const CASES: u8 = 181;

fn read_text<R: Print + Eprint>(rt: &R, text: &[u8]) {
    match trace_text::read_trace(text, DELAY) {
        Ok(events) => {
            program_output::field(rt, b"accepted events=", events.len as u64);
            program_output::end_line(rt);
        }
        Err(refusal) => program_output::write_refused(rt, text, b"", refusal),
    }
}

fn read_file<R: Files + Print + Eprint>(rt: &R, path: &[u8]) {
    let mut buf = [0u8; 65536];
    if let Some(n) = program_input::read_file(rt, path, &mut buf) {
        read_text(rt, &buf[..n]);
    }
}

// The file that a number names by its three digits.
fn numbered<R: Files + Print + Eprint>(rt: &R, i: u8) {
    let name = [b'0' + i / 100 % 10, b'0' + i / 10 % 10, b'0' + i % 10];
    program_output::write(rt, b"text ");
    program_output::write(rt, &name);
    program_output::end_line(rt);
    read_file(rt, &name);
}

fn main(rt: HostRuntime) {
    for i in 0..CASES {
        numbered(&rt, i);
    }
}
