// replay_orders TRACE TABLES ORDERS [DELAY]: tries orders of the events of a trace, each from the tables of a second file; a third
// holds the orders end to end, a byte for each event. DELAY is in milliseconds; left out, it is the usual one. Prints a line for each
// order, or what is refused.
#![tactic(auto)]

ghost use Rattle.std.specs.Prelude.{◌≡◌, ◌+◌, ◌≤◌, ◌<◌, length};

use program_input::{has_arg, read_arg};
use std::rt::{Env, Files};

// Room for the orders, and for the byte that tells that there are more.
fn order_room() -> [u8; 1048577]
    ensures { 1048577 ≡ length result }
{
    [0u8; 1048577]
}

// Room for a byte an order: none is shorter than a byte.
fn result_room() -> [u8; 1048576]
    ensures { 1048576 ≡ length result }
{
    [0u8; 1048576]
}

// Room for the lines of 4,096 orders, 25 bytes each.
fn line_room() -> [u8; 102400]
    ensures { 102400 ≡ length result }
{
    [0u8; 102400]
}

// Where the part ends that begins at a place of so many.
fn part_end(from: usize, all: usize) -> usize
    requires { from < all }
    ensures { (from < result) × (result ≤ all) × (result ≤ from + 4096) }
{
    if 4096 < all - from { from + 4096 } else { all }
}

// The lines of all results, in parts of 4,096; none after one that can't be written.
fn print_results<R: Print + Eprint>(rt: &R, results: &[u8])
    requires { length results.now ≤ 1048576 }
{
    let mut text = line_room();
    let mut from: usize = 0;
    while from < results.len() {
        let to = part_end(from, results.len());
        let n = trials_report::put_results(&mut text, from, &results[from..to]);
        if !program_output::write(rt, text_lines::front(&text, n)) {
            return;
        }
        from = to;
    }
}

fn print_tried<'a, R: Print + Eprint>(
    rt: &R,
    trace: &'a [u8],
    tables: &'a [u8],
    orders: &[u8],
    delay: u32,
) {
    let mut results = result_room();
    match trials_call::try_orders(trace, tables, orders, delay, &mut results) {
        Ok(n) => {
            print_results(rt, text_lines::front(&results, n));
        }
        Err(e) => {
            program_output::write_refused(rt, trace, tables, e);
        }
    }
}

// With the orders of the third file.
fn try_file<'a, R: Env + Files + Print + Eprint>(
    rt: &R,
    trace: &'a [u8],
    tables: &'a [u8],
    delay: u32,
) {
    let mut buf = order_room();
    let Some(n) = read_arg(rt, 3, &mut buf) else {
        return;
    };
    if 1048576 < n {
        let _ = rt.eprintln("orders over 1048576 bytes");
        return;
    }
    print_tried(rt, trace, tables, &buf[..n], delay);
}

fn main(rt: HostRuntime) {
    if !has_arg(&rt, 3) || has_arg(&rt, 5) {
        let _ = rt.eprintln("usage: replay_orders TRACE TABLES ORDERS [DELAY]");
        return;
    }
    let Some(delay) = program_delay::delay_arg(&rt, 4) else {
        return;
    };
    let mut trace = [0u8; 65536];
    let mut tables = [0u8; 65536];
    let Some(n) = read_arg(&rt, 1, &mut trace) else {
        return;
    };
    let Some(m) = read_arg(&rt, 2, &mut tables) else {
        return;
    };
    try_file(&rt, &trace[..n], &tables[..m], delay);
}
