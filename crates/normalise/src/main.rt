// Reads a table text from standard input, and writes its normal form or what is refused to standard output.
#![tactic(auto)]

fn answer<R: Print + Eprint>(rt: &R, tables: &[u8]) {
    let mut out = [0u8; 65536];
    match tables_normal::normalise(tables, &mut out) {
        Ok(n) => {
            program_output::write(rt, text_lines::front(&out, n));
        }
        Err(e) => {
            program_output::write_refused(rt, b"", tables, e);
        }
    }
}

fn main(rt: HostRuntime) {
    let mut buf = [0u8; 65536];
    if let Some(n) = program_input::read_input(&rt, b"usage: normalise < TABLES\n", &mut buf) {
        answer(&rt, &buf[..n]);
    }
}
