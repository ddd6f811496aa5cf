// A match as three words of bits, so that all seven fields are compared at once. Worked out once for a match that is held against many.
ghost use Rattle.std.specs.Prelude.{◌≡◌};
ghost use Rattle.flow_bits.specs.Inner.{first_word, second_word, third_word, bits_of, bits_overlap, bits_within, exactly, NarrowFirst, NarrowSecond, NarrowThird, Narrow};

use crate::words::Word;
use flow::{Exact, Match, Packet, Prefix};

// Port, VLAN, source; destination, protocol, source port; the lengths of both prefixes, which count only where two matches are the
// same, and the destination port.
#[derive(Clone, Copy, PartialEq, Eq)]
pub struct Bits {
    pub first: Word,
    pub second: Word,
    pub third: Word,
}

fn first_word(m: Match) -> Word
    ensures { (result ≡ first_word m) × NarrowFirst m }
{
    let port = Word::of_exact(m.port);
    let vlan = Word::of_exact(m.vlan);
    let src = Word::of_prefix(m.src);
    port.beside(vlan, 16).beside(src, 32)
}

fn second_word(m: Match) -> Word
    ensures { (result ≡ second_word m) × NarrowSecond m }
{
    let dst = Word::of_prefix(m.dst);
    let proto = Word::of_exact(m.proto);
    let sport = Word::of_exact(m.sport);
    dst.beside(proto.beside(sport, 16), 32)
}

fn third_word(m: Match) -> Word
    ensures { (result ≡ third_word m) × NarrowThird m }
{
    let src_length = Word::of_length(m.src);
    let dst_length = Word::of_length(m.dst);
    let dport = Word::of_exact(m.dport);
    src_length.beside(dst_length, 8).beside(dport, 16)
}

// The match that just this packet fits.
#[tactic(auto, unfolding(crate::specs::Inner::exactly))]
pub fn exactly(p: Packet) -> Match
    ensures { result ≡ exactly p }
{
    Match {
        port: Exact::Is(p.port),
        vlan: Exact::Is(p.vlan),
        src: Prefix {
            value: p.src,
            length: 32,
        },
        dst: Prefix {
            value: p.dst,
            length: 32,
        },
        proto: Exact::Is(p.proto),
        sport: Exact::Is(p.sport),
        dport: Exact::Is(p.dport),
    }
}

impl Bits {
    #[tactic(auto, unfolding(crate::specs::Inner::bits_overlap))]
    pub fn overlaps(self, other: Bits) -> bool
        ensures { result ≡ bits_overlap self other }
    {
        self.first.overlaps(other.first)
            & (self.second.overlaps(other.second) & self.third.overlaps(other.third))
    }

    #[tactic(auto, unfolding(crate::specs::Inner::bits_within))]
    pub fn within(self, other: Bits) -> bool
        ensures { result ≡ bits_within self other }
    {
        self.first.within(other.first)
            & (self.second.within(other.second) & self.third.within(other.third))
    }

    #[tactic(auto, unfolding(crate::specs::Inner::bits_of))]
    pub fn of(m: Match) -> Bits
        ensures { (result ≡ bits_of m) × Narrow m }
    {
        Bits {
            first: first_word(m),
            second: second_word(m),
            third: third_word(m),
        }
    }
}
