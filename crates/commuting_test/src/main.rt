// The verdict on each cell of document 01's table of commuting pairs, both ways round and on both sides of its condition.
// What must come out is in the file `stdout`.
#![tactic(auto)]

use commuting::Footprint;
use flow::{Action, Entry, Exact, Key, Match, Packet, Prefix};
use flow_table::{Origin, TableOperation, table_effect};
use std::io;

// A pair a line, a digit each: word, match, priority and port of the one, then of the other. The words from 0 on are pkt, add,
// addc, mods, modn, dels, deln.
const PAIRS: [u32; 100] = [
    0x0000_0000,
    0x0000_0300,
    0x0000_1051,
    0x0300_1051,
    0x0000_2051,
    0x0300_2051,
    0x0000_3051,
    0x0300_3051,
    0x0000_4051,
    0x0300_4051,
    0x0000_5051,
    0x0300_5051,
    0x0000_6051,
    0x0300_6051,
    0x1051_1051,
    0x1051_1052,
    0x1051_1062,
    0x1051_1152,
    0x1051_3051,
    0x1051_3052,
    0x1051_3062,
    0x1051_3152,
    0x3051_3051,
    0x3051_3052,
    0x3051_3062,
    0x3051_3152,
    0x1051_5050,
    0x1151_5050,
    0x1251_5050,
    0x1351_5050,
    0x1051_6050,
    0x1151_6050,
    0x1251_6050,
    0x1351_6050,
    0x3051_5050,
    0x3151_5050,
    0x3251_5050,
    0x3351_5050,
    0x3051_6050,
    0x3151_6050,
    0x3251_6050,
    0x3351_6050,
    0x1051_4051,
    0x1052_4051,
    0x1061_4051,
    0x1151_4051,
    0x1251_4051,
    0x1351_4051,
    0x3051_4051,
    0x3052_4051,
    0x3061_4051,
    0x3151_4051,
    0x3251_4051,
    0x3351_4051,
    0x2051_1051,
    0x2051_1251,
    0x2051_1161,
    0x2051_1351,
    0x2051_2051,
    0x2051_2251,
    0x2051_2161,
    0x2051_2351,
    0x2051_3051,
    0x2051_3251,
    0x2051_3161,
    0x2051_3351,
    0x2051_5051,
    0x2051_5251,
    0x2051_5161,
    0x2051_5351,
    0x2051_4051,
    0x2161_4051,
    0x2251_4051,
    0x2261_4051,
    0x2351_4051,
    0x2051_6000,
    0x2151_6000,
    0x2251_6000,
    0x2351_6000,
    0x4051_6000,
    0x4151_6000,
    0x4251_6000,
    0x4351_6000,
    0x4051_5050,
    0x4051_5150,
    0x4051_5250,
    0x4051_5350,
    0x4051_4051,
    0x4051_4052,
    0x4051_4061,
    0x4051_4151,
    0x4051_4251,
    0x4051_4252,
    0x4051_4352,
    0x5050_5050,
    0x5050_5150,
    0x5050_6050,
    0x5050_6150,
    0x6050_6050,
    0x6050_6150,
];

// A and B are nested, D overlaps both, N lies beside A and B.
fn to(value: u32, length: u8, dport: Exact) -> Match {
    Match {
        port: Exact::Any,
        vlan: Exact::Any,
        src: Prefix {
            value: 0,
            length: 0,
        },
        dst: Prefix { value, length },
        proto: Exact::Any,
        sport: Exact::Any,
        dport,
    }
}

fn pattern(m: u8) -> Match {
    match m {
        0 => to(0x0a000000, 8, Exact::Any),
        1 => to(0x0a010000, 16, Exact::Any),
        2 => to(0, 0, Exact::Is(80)),
        _ => to(0x0b000000, 8, Exact::Any),
    }
}

// A packet that fits A and B, or one that fits N and D.
fn packet(m: u8) -> Packet {
    let dst: u32 = if m == 0 { 0x0a010000 } else { 0x0b000000 };
    let dport: u16 = if m == 0 { 81 } else { 80 };
    Packet {
        port: 1,
        vlan: 1,
        src: 0,
        dst,
        proto: 6,
        sport: 4000,
        dport,
    }
}

fn digit(n: u32) -> u8 {
    (n % 16) as u8
}

fn operation(digits: u32) -> TableOperation {
    let m = digit(digits / 256);
    let k = Key {
        priority: digit(digits / 16) as u16,
        pattern: pattern(m),
    };
    let e = Entry {
        key: k,
        action: Action::Port(digit(digits) as u16),
    };
    match digit(digits / 4096) {
        0 => TableOperation::Packet(Origin::Received, packet(m)),
        1 => TableOperation::Add(e),
        2 => TableOperation::AddChecked(e),
        3 => TableOperation::ModifyStrict(e),
        4 => TableOperation::Modify(e),
        5 => TableOperation::DeleteStrict(k),
        _ => TableOperation::Delete(pattern(m)),
    }
}

fn is_said<R: Eprint>(rt: &R, said: io::Result<()>) {
    if let Err(e) = said {
        let _ = eprintln!(rt; "standard output: {e}");
    }
}

fn say<R: Print + Eprint>(rt: &R, text: &[u8]) {
    is_said(rt, rt.write_all(text));
}

fn say_word<R: Print + Eprint>(rt: &R, word: u8) {
    match word {
        0 => say(rt, b"pkt"),
        1 => say(rt, b"add"),
        2 => say(rt, b"addc"),
        3 => say(rt, b"mods"),
        4 => say(rt, b"modn"),
        5 => say(rt, b"dels"),
        _ => say(rt, b"deln"),
    }
}

fn say_match<R: Print + Eprint>(rt: &R, m: u8) {
    match m {
        0 => say(rt, b" A"),
        1 => say(rt, b" B"),
        2 => say(rt, b" D"),
        _ => say(rt, b" N"),
    }
}

fn say_number<R: Print + Eprint>(rt: &R, before: &[u8], n: u8) {
    say(rt, before);
    is_said(rt, rt.print(n));
}

// The operation with the fields that it has.
fn say_operation<R: Print + Eprint>(rt: &R, digits: u32) {
    let word = digit(digits / 4096);
    say_word(rt, word);
    say_match(rt, digit(digits / 256));
    if 0 < word {
        if word < 6 {
            say_number(rt, b" ", digit(digits / 16));
        }
        if word < 5 {
            say_number(rt, b" p", digit(digits));
        }
    }
}

fn verdict<R: Print + Eprint>(rt: &R, yes: bool) {
    if yes {
        say(rt, b" yes");
    } else {
        say(rt, b" no");
    }
}

// The pair, and the verdict both ways round.
fn pair<R: Print + Eprint>(rt: &R, digits: u32) {
    let one = digits / 65536;
    let other = digits % 65536;
    let v = Footprint::of(table_effect(operation(one)));
    let w = Footprint::of(table_effect(operation(other)));
    say_operation(rt, one);
    say(rt, b", ");
    say_operation(rt, other);
    say(rt, b":");
    verdict(rt, commuting_pairs::commutes(v, w));
    verdict(rt, commuting_pairs::commutes(w, v));
    say(rt, b"\n");
}

fn main(rt: HostRuntime) {
    for at in 0..100 {
        pair(&rt, PAIRS[at]);
    }
}
