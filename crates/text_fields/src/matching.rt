// The fields of a match and of a packet, read from a place of a line. Where a field has no value, the line is refused: as
// `malformed`, which has its number. (One function for both would take two closures and hand back seven fields: no plainer.)
ghost use Rattle.std.specs.Prelude.{◌≡◌};
ghost use Rattle.basics.specs.Text.{bytes};
ghost use Rattle.refusals.specs.Checks.{refuse_none};
ghost use Rattle.text_numbers.specs.Reading.{keyed};
ghost use Rattle.text_fields.specs.Read.{read_exact, read_match, read_packet};

use crate::field::{exact_at, prefix_at};
use flow::{Exact, Match, Packet};
use refusals::Refusal;
use text_numbers::{hex_at, number_at};

// The VLAN of a match: `*`, or 0 to 4095. A reader of its own, so that its bound stands in one equation.
fn vlan_at(s: &[u8], at: usize) -> Option<(Exact, usize)>
    ensures { result ≡ keyed (bytes " vlan=") (read_exact 4095) s.now at }
{
    exact_at(s, at, b" vlan=", 4095)
}

// The fields of a match.
#[tactic(auto, unfolding(crate::specs::Read::read_match, crate::specs::Read::read_fields, crate::specs::Read::read_last, text_numbers::specs::Reading::both, text_numbers::specs::Reading::and_then, text_numbers::specs::Reading::mapped))]
pub fn match_at(s: &[u8], at: usize, malformed: Refusal) -> Result<(Match, usize), Refusal>
    ensures { result ≡ refuse_none (read_match s.now at) malformed }
{
    let Some((port, next)) = exact_at(s, at, b" port=", 65535) else {
        return Err(malformed);
    };
    let Some((vlan, next)) = vlan_at(s, next) else {
        return Err(malformed);
    };
    let Some((src, next)) = prefix_at(s, next, b" src=") else {
        return Err(malformed);
    };
    let Some((dst, next)) = prefix_at(s, next, b" dst=") else {
        return Err(malformed);
    };
    let Some((proto, next)) = exact_at(s, next, b" proto=", 255) else {
        return Err(malformed);
    };
    let Some((sport, next)) = exact_at(s, next, b" sport=", 65535) else {
        return Err(malformed);
    };
    let Some((dport, next)) = exact_at(s, next, b" dport=", 65535) else {
        return Err(malformed);
    };
    let value = Match {
        port,
        vlan,
        src,
        dst,
        proto,
        sport,
        dport,
    };
    Ok((value, next))
}

// The fields of a packet, all exact.
#[tactic(auto, unfolding(crate::specs::Read::read_packet, crate::specs::Read::read_fields, crate::specs::Read::read_last, text_numbers::specs::Reading::both, text_numbers::specs::Reading::and_then, text_numbers::specs::Reading::mapped))]
pub fn packet_at(s: &[u8], at: usize, malformed: Refusal) -> Result<(Packet, usize), Refusal>
    ensures { result ≡ refuse_none (read_packet s.now at) malformed }
{
    let Some((port, next)) = number_at(s, at, b" port=", 65535) else {
        return Err(malformed);
    };
    let Some((vlan, next)) = number_at(s, next, b" vlan=", 4095) else {
        return Err(malformed);
    };
    let Some((src, next)) = hex_at(s, next, b" src=") else {
        return Err(malformed);
    };
    let Some((dst, next)) = hex_at(s, next, b" dst=") else {
        return Err(malformed);
    };
    let Some((proto, next)) = number_at(s, next, b" proto=", 255) else {
        return Err(malformed);
    };
    let Some((sport, next)) = number_at(s, next, b" sport=", 65535) else {
        return Err(malformed);
    };
    let Some((dport, next)) = number_at(s, next, b" dport=", 65535) else {
        return Err(malformed);
    };
    let value = Packet {
        port,
        vlan,
        src,
        dst,
        proto,
        sport,
        dport,
    };
    Ok((value, next))
}
