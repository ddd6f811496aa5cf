// A match of seven fields, and the packet that it is held against.
ghost use Rattle.std.specs.Prelude.{◌≡◌};
ghost use Rattle.flow.specs.Matches.{fits, overlaps, within, clear};
ghost use Rattle.flow.specs.Entries.{match_order};

use crate::exact::Exact;
use crate::prefix::Prefix;
use std::cmp::Ordering;

// In table order: by its fields, as they are declared.
#[derive(Clone, Copy, PartialEq, Eq, PartialOrd, Ord)]
pub struct Match {
    pub port: Exact,
    pub vlan: Exact,
    pub src: Prefix,
    pub dst: Prefix,
    pub proto: Exact,
    pub sport: Exact,
    pub dport: Exact,
}

#[derive(Clone, Copy, PartialEq, Eq)]
pub struct Packet {
    pub port: u16,
    pub vlan: u16,
    pub src: u32,
    pub dst: u32,
    pub proto: u16,
    pub sport: u16,
    pub dport: u16,
}

impl Match {
    #[tactic(auto, unfolding(crate::specs::Matches::fits))]
    pub fn fits(self, p: Packet) -> bool
        ensures { result ≡ fits self p }
    {
        self.port.fits(p.port)
            && self.vlan.fits(p.vlan)
            && self.src.fits(p.src)
            && self.dst.fits(p.dst)
            && self.proto.fits(p.proto)
            && self.sport.fits(p.sport)
            && self.dport.fits(p.dport)
    }

    #[tactic(auto, unfolding(crate::specs::Matches::overlaps))]
    pub fn overlaps(self, other: Match) -> bool
        ensures { result ≡ overlaps self other }
    {
        self.port.overlaps(other.port)
            && self.vlan.overlaps(other.vlan)
            && self.src.overlaps(other.src)
            && self.dst.overlaps(other.dst)
            && self.proto.overlaps(other.proto)
            && self.sport.overlaps(other.sport)
            && self.dport.overlaps(other.dport)
    }

    #[tactic(auto, unfolding(crate::specs::Matches::within))]
    pub fn within(self, other: Match) -> bool
        ensures { result ≡ within self other }
    {
        self.port.within(other.port)
            && self.vlan.within(other.vlan)
            && self.src.within(other.src)
            && self.dst.within(other.dst)
            && self.proto.within(other.proto)
            && self.sport.within(other.sport)
            && self.dport.within(other.dport)
    }

    // No address bit stands past its prefix's length.
    #[tactic(auto, unfolding(crate::specs::Matches::clear))]
    pub fn is_clear(self) -> bool
        ensures { result ≡ clear self }
    {
        self.src.is_clear() && self.dst.is_clear()
    }

    #[tactic(auto, using(crate::proofs::Derived::match_in_order))]
    pub fn order(self, other: Match) -> Ordering
        ensures { result ≡ match_order self other }
    {
        self.cmp(&other)
    }
}
