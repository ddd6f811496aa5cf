// What commuting asks of an effect, worked out once an event and not once a pair: its match as words of bits, a packet as the match
// that it alone fits.
ghost use Rattle.std.specs.Prelude.{◌≡◌};
ghost use Rattle.flow_bits.specs.Inner.{Narrow};
ghost use Rattle.commuting.specs.InnerFootprints.{printed, no_footprint, footprint_of, NarrowEffect, same_key_by, same_action_by};
ghost use Rattle.commuting.specs.Commuting.{at};

use flow::{Action, Key, Match};
use flow_bits::{Bits, Word, exactly};
use flow_table::Effect;

// The forms of an effect.
#[derive(Clone, Copy, PartialEq, Eq)]
pub enum EffectKind {
    Idle,
    Pkt,
    Add,
    Addc,
    Modn,
    Dels,
    Deln,
}

// Priority 0 and the action `drop` where the effect has none.
#[derive(Clone, Copy)]
pub struct Footprint {
    pub kind: EffectKind,
    pub priority: u16,
    pub bits: Bits,
    pub action: Action,
}

impl Footprint {
    // Of an effect that does nothing.
    fn none() -> Footprint
        ensures { result ≡ no_footprint }
    {
        let none = Word { value: 0, mask: 0 };
        Footprint {
            kind: EffectKind::Idle,
            priority: 0,
            bits: Bits {
                first: none,
                second: none,
                third: none,
            },
            action: Action::Drop,
        }
    }

    fn of_key(kind: EffectKind, key: Key, action: Action) -> Footprint
        ensures { (result ≡ printed kind key action) × Narrow key.pattern }
    {
        Footprint {
            kind,
            priority: key.priority,
            bits: Bits::of(key.pattern),
            action,
        }
    }

    fn of_match(kind: EffectKind, pattern: Match) -> Footprint
        ensures { (result ≡ printed kind (at 0 pattern) Action.Drop) × Narrow pattern }
    {
        let key = Key {
            priority: 0,
            pattern,
        };
        Footprint::of_key(kind, key, Action::Drop)
    }

    pub fn of(effect: Effect) -> Footprint
        ensures { (result ≡ footprint_of effect) × NarrowEffect effect }
    {
        match effect {
            Effect::Pkt(p) => Footprint::of_match(EffectKind::Pkt, exactly(p)),
            Effect::Add(k, a) => Footprint::of_key(EffectKind::Add, k, a),
            Effect::Addc(k, a) => Footprint::of_key(EffectKind::Addc, k, a),
            Effect::Modn(k, a) => Footprint::of_key(EffectKind::Modn, k, a),
            Effect::Dels(k) => Footprint::of_key(EffectKind::Dels, k, Action::Drop),
            Effect::Deln(m) => Footprint::of_match(EffectKind::Deln, m),
            Effect::Idle => Footprint::none(),
        }
    }

    // The same priority and match.
    #[tactic(auto, using(flow_bits::proofs::Derived::same_words), unfolding(crate::specs::InnerFootprints::same_key_by))]
    pub fn same_key(self, other: Footprint) -> bool
        ensures { result ≡ same_key_by self other }
    {
        self.priority == other.priority && self.bits == other.bits
    }

    #[tactic(auto, using(flow::proofs::Derived::action_same), unfolding(crate::specs::InnerFootprints::same_action_by))]
    pub fn same_action(self, other: Footprint) -> bool
        ensures { result ≡ same_action_by self other }
    {
        self.action == other.action
    }
}
