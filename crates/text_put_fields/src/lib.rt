// An entry and its parts, put at a place of a buffer.
#![tactic(auto)]

ghost use Rattle.std.specs.Prelude.{◌++◌, ◌+◌, ◌≤◌, ◌<◌, ◌^◌, length};
ghost use Rattle.text_numbers.specs.Inner.{Put};
ghost use Rattle.text_fields.specs.Print.{print_exact, print_prefix, print_last, print_match, print_action, print_key, print_entry};

use flow::{Action, Entry, Exact, Key, Match, Prefix};
use text_numbers::{put_bytes, put_hex, put_number};

// A key, and then `*` or a number.
fn put_exact(out: &mut [u8], at: usize, key: &[u8], x: Exact) -> usize
    requires { (at < 2 ^ 31) × (length key.now < 2 ^ 31) }
    ensures put { Put (key.now ++ print_exact x) at out.old result out.new }
    ensures reach { result ≤ at + length key.now + 20 }
{
    let n = put_bytes(out, at, key);
    match x {
        Exact::Any => put_bytes(out, n, b"*"),
        Exact::Is(v) => put_number(out, n, v as usize),
    }
}

// A key, and then a prefix.
fn put_prefix(out: &mut [u8], at: usize, key: &[u8], p: Prefix) -> usize
    requires { (at < 2 ^ 31) × (length key.now < 2 ^ 30) }
    ensures put { Put (key.now ++ print_prefix p) at out.old result out.new }
    ensures reach { result ≤ at + length key.now + 29 }
{
    let value = put_bytes(out, at, key);
    let slash = put_hex(out, value, p.value);
    let length = put_bytes(out, slash, b"/");
    put_number(out, length, p.length as usize)
}

// The last three fields of a match.
fn put_last(out: &mut [u8], at: usize, proto: Exact, sport: Exact, dport: Exact) -> usize
    requires { at + 54 < 2 ^ 31 }
    ensures { Put (print_last print_exact proto sport dport) at out.old result out.new }
{
    let a = put_exact(out, at, b" proto=", proto);
    let b = put_exact(out, a, b" sport=", sport);
    put_exact(out, b, b" dport=", dport)
}

// The fields of a match.
fn put_match(out: &mut [u8], at: usize, m: Match) -> usize
    requires { at < 2 ^ 30 }
    ensures { Put (print_match m) at out.old result out.new }
{
    let port = m.port;
    let vlan = m.vlan;
    let src = m.src;
    let dst = m.dst;
    let proto = m.proto;
    let sport = m.sport;
    let dport = m.dport;
    let a = put_exact(out, at, b" port=", port);
    let b = put_exact(out, a, b" vlan=", vlan);
    let c = put_prefix(out, b, b" src=", src);
    let d = put_prefix(out, c, b" dst=", dst);
    put_last(out, d, proto, sport, dport)
}

// `drop`, `ctl` or `pN`.
pub fn put_action(out: &mut [u8], at: usize, a: Action) -> usize
    requires { at < 2 ^ 31 }
    ensures { Put (print_action a) at out.old result out.new }
{
    match a {
        Action::Drop => put_bytes(out, at, b"drop"),
        Action::Controller => put_bytes(out, at, b"ctl"),
        Action::Port(v) => {
            let n = put_bytes(out, at, b"p");
            put_number(out, n, v as usize)
        }
    }
}

// Priority, then match.
fn put_key(out: &mut [u8], at: usize, k: Key) -> usize
    requires { at < 2 ^ 29 }
    ensures { Put (print_key k) at out.old result out.new }
{
    let m = k.pattern;
    let a = put_bytes(out, at, b" prio=");
    let b = put_number(out, a, k.priority as usize);
    put_match(out, b, m)
}

// Key, then action.
pub fn put_entry(out: &mut [u8], at: usize, e: Entry) -> usize
    requires { at < 2 ^ 28 }
    ensures { Put (print_entry e) at out.old result out.new }
{
    let key = e.key;
    let action = e.action;
    let a = put_key(out, at, key);
    let b = put_bytes(out, a, b" act=");
    put_action(out, b, action)
}
