// Vectors for matches and table order: document 01's examples of addresses, the masks of all lengths, each pair of the
// matches below, and each packet against each match. What must come out is in the file `stdout`.
#![tactic(auto)]

ghost use Rattle.std.specs.Prelude.{◌<◌};

use flow::{Action, Exact, Key, Match, Packet, Prefix};
use std::cmp::Ordering;

// A match a row: port, vlan, source address and length, destination address and length, proto, sport, dport; 65536 stands for `*`.
const MATCHES: [[u32; 9]; 31] = [
    [65536, 65536, 0, 0, 0, 0, 65536, 65536, 65536],
    [0, 65536, 0, 0, 0, 0, 65536, 65536, 65536],
    [1, 65536, 0, 0, 0, 0, 65536, 65536, 65536],
    [65535, 65536, 0, 0, 0, 0, 65536, 65536, 65536],
    [65536, 65536, 0x80000000, 1, 0, 0, 65536, 65536, 65536],
    [65536, 65536, 0, 1, 0, 0, 65536, 65536, 65536],
    [65536, 65536, 0x0a000000, 8, 0, 0, 65536, 65536, 65536],
    [65536, 65536, 0x0a000002, 31, 0, 0, 65536, 65536, 65536],
    [65536, 65536, 0x0a000002, 32, 0, 0, 65536, 65536, 65536],
    [65536, 65536, 0x0a000003, 32, 0, 0, 65536, 65536, 65536],
    [65536, 65536, 0, 32, 0, 0, 65536, 65536, 65536],
    [65536, 65536, 0, 0, 0x80000000, 1, 65536, 65536, 65536],
    [65536, 65536, 0, 0, 0x0a000000, 8, 65536, 65536, 65536],
    [65536, 65536, 0, 0, 0x0a010000, 16, 65536, 65536, 65536],
    [65536, 65536, 0, 0, 0x0a010002, 31, 65536, 65536, 65536],
    [65536, 65536, 0, 0, 0x0a010003, 32, 65536, 65536, 65536],
    [65536, 65536, 0, 0, 0, 0, 0, 65536, 65536],
    [65536, 65536, 0, 0, 0, 0, 6, 65536, 65536],
    [65536, 65536, 0, 0, 0, 0, 255, 65536, 65536],
    [65536, 65536, 0, 0, 0, 0, 65536, 0, 65536],
    [65536, 65536, 0, 0, 0, 0, 65536, 65535, 65536],
    [65536, 65536, 0, 0, 0, 0, 65536, 65536, 80],
    [65536, 65536, 0, 0, 0, 0, 65536, 65536, 81],
    [1, 1, 0x0a000002, 31, 0x0a010003, 32, 6, 65535, 80],
    [1, 65536, 0, 0, 0x0a010000, 16, 6, 65536, 65536],
    [65536, 65536, 0x0a000000, 8, 0, 0, 65536, 65536, 80],
    [65536, 0, 0, 0, 0, 0, 65536, 65536, 65536],
    [65536, 1, 0, 0, 0, 0, 65536, 65536, 65536],
    [65536, 4095, 0, 0, 0, 0, 65536, 65536, 65536],
    [65536, 0, 0x80000000, 1, 0, 0, 65536, 65536, 65536],
    [0, 4095, 0, 0, 0, 0, 65536, 65536, 65536],
];

fn exact(n: u32) -> Exact {
    if n < 65536 {
        return Exact::Is(n as u16);
    }
    Exact::Any
}

fn prefix(value: u32, length: u32) -> Prefix {
    Prefix {
        value,
        length: (length % 256) as u8,
    }
}

fn sample(i: usize) -> Match
    requires { i < 31 }
{
    let r = MATCHES[i];
    Match {
        port: exact(r[0]),
        vlan: exact(r[1]),
        src: prefix(r[2], r[3]),
        dst: prefix(r[4], r[5]),
        proto: exact(r[6]),
        sport: exact(r[7]),
        dport: exact(r[8]),
    }
}

fn say<R: Print + Eprint>(rt: &R, text: &[u8]) {
    if let Err(e) = rt.write_all(text) {
        let _ = eprintln!(rt; "standard output: {e}");
    }
}

fn end_line<R: Print + Eprint>(rt: &R) {
    say(rt, b"\n");
}

fn say_if<R: Print + Eprint>(rt: &R, ok: bool, yes: &[u8], no: &[u8]) {
    if ok {
        say(rt, yes);
    } else {
        say(rt, no);
    }
}

fn say_order<R: Print + Eprint>(rt: &R, o: Ordering) {
    match o {
        Ordering::Less => say(rt, b"<"),
        Ordering::Equal => say(rt, b"="),
        Ordering::Greater => say(rt, b">"),
    }
}

// Overlap, within and order of two matches: `ow<`, with `.` for no.
fn pair<R: Print + Eprint>(rt: &R, m: Match, n: Match) {
    say_if(rt, m.overlaps(n), b" o", b" .");
    say_if(rt, m.within(n), b"w", b".");
    say_order(rt, m.order(n));
}

fn row<R: Print + Eprint>(rt: &R, i: usize)
    requires { i < 31 }
{
    let m = sample(i);
    for j in 0..31 {
        pair(rt, m, sample(j));
    }
    end_line(rt);
}

fn cell<R: Print + Eprint>(rt: &R, m: Match, p: Packet) {
    say_if(rt, m.fits(p), b"x", b".");
}

// Which of the matches a packet fits.
fn packet<R: Print + Eprint>(rt: &R, p: Packet) {
    for i in 0..31 {
        let m = sample(i);
        cell(rt, m, p);
    }
    end_line(rt);
}

fn sent<R: Print + Eprint>(
    rt: &R,
    port: u16,
    vlan: u16,
    src: u32,
    dst: u32,
    proto: u16,
    sport: u16,
    dport: u16,
) {
    packet(
        rt,
        Packet {
            port,
            vlan,
            src,
            dst,
            proto,
            sport,
            dport,
        },
    );
}

fn address<R: Print + Eprint>(rt: &R, name: &[u8], value: u32, length: u8) {
    let p = Prefix { value, length };
    say(rt, name);
    say_if(
        rt,
        p.is_clear(),
        b" passes\n",
        b" has a bit past its length\n",
    );
}

// The mask of a length, as 8 hexadecimal digits.
fn say_mask<R: Print + Eprint>(rt: &R, length: u8) {
    let mut digits: [u8; 8] = [0; 8];
    text_numbers::put_hex(&mut digits, 0, flow::prefix::mask(length));
    say(rt, &digits);
    end_line(rt);
}

fn masks<R: Print + Eprint>(rt: &R) {
    for length in 0..33 {
        say_mask(rt, length);
    }
}

// Two keys by priority and match.
fn keys<R: Print + Eprint>(rt: &R, p: u16, i: usize, q: u16, j: usize)
    requires { (i < 31) × (j < 31) }
{
    let k = Key {
        priority: p,
        pattern: sample(i),
    };
    let l = Key {
        priority: q,
        pattern: sample(j),
    };
    say_order(rt, k.order(l));
    say_if(rt, k == l, b" same\n", b" differ\n");
}

fn actions<R: Print + Eprint>(rt: &R, a: Action, b: Action) {
    say_if(rt, a == b, b"same\n", b"differ\n");
}

fn rows<R: Print + Eprint>(rt: &R) {
    for i in 0..31 {
        row(rt, i);
    }
}

fn main(rt: HostRuntime) {
    address(&rt, b"0a000002/31", 0x0a000002, 31);
    address(&rt, b"0a000001/31", 0x0a000001, 31);
    address(&rt, b"00000000/0", 0, 0);
    address(&rt, b"80000000/0", 0x80000000, 0);
    address(&rt, b"80000000/1", 0x80000000, 1);
    address(&rt, b"40000000/1", 0x40000000, 1);
    address(&rt, b"ffffffff/32", 0xffffffff, 32);
    masks(&rt);
    rows(&rt);
    sent(&rt, 1, 1, 0x0a000003, 0x0a010003, 6, 65535, 80);
    sent(&rt, 0, 0, 0x00000000, 0x00000000, 0, 0, 0);
    sent(&rt, 65535, 4095, 0xffffffff, 0xffffffff, 255, 65535, 65535);
    sent(&rt, 2, 2, 0x0a000002, 0x0a01ffff, 17, 1, 81);
    keys(&rt, 10, 0, 5, 0);
    keys(&rt, 5, 0, 10, 0);
    keys(&rt, 5, 0, 5, 0);
    keys(&rt, 5, 1, 5, 0);
    keys(&rt, 5, 0, 5, 1);
    keys(&rt, 10, 3, 5, 0);
    keys(&rt, 0, 2, 65535, 2);
    keys(&rt, 7, 13, 7, 13);
    keys(&rt, 5, 26, 5, 27);
    actions(&rt, Action::Drop, Action::Drop);
    actions(&rt, Action::Drop, Action::Controller);
    actions(&rt, Action::Controller, Action::Controller);
    actions(&rt, Action::Controller, Action::Port(0));
    actions(&rt, Action::Port(0), Action::Drop);
    actions(&rt, Action::Port(1), Action::Port(1));
    actions(&rt, Action::Port(1), Action::Port(2));
    actions(&rt, Action::Port(65535), Action::Port(65535));
}
