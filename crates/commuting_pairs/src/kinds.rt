// Which row of the table is for which pair, both ways round.
ghost use Rattle.std.specs.Prelude.{◌≡◌};
ghost use Rattle.commuting.specs.InnerFootprints.{footprints_commute};

use commuting::EffectKind::{Add, Addc, Deln, Dels, Idle, Modn, Pkt};
use commuting::Footprint;
use commuting::cases::{
    add_add, add_modify, apart, checked_modify, checked_other, keys_differ, modify_modify, outside,
};

// Whether two events of one switch commute, by the footprints of what they do to its table.
#[tactic(auto, unfolding(commuting::specs::InnerFootprints::footprints_commute))]
pub fn commutes(j: Footprint, k: Footprint) -> bool
    ensures { result ≡ footprints_commute j k }
{
    match (j.kind, k.kind) {
        (Idle, _) | (_, Idle) | (Pkt, Pkt) | (Dels | Deln, Dels | Deln) => true,
        (Pkt, _) => apart(k, j),
        (_, Pkt) => apart(j, k),
        (Add, Add) => add_add(j, k),
        (Add, Modn) => add_modify(j, k),
        (Modn, Add) => add_modify(k, j),
        (Add, Dels) => keys_differ(j, k),
        (Dels, Add) => keys_differ(k, j),
        (Add, Deln) => outside(j, k),
        (Deln, Add) => outside(k, j),
        (Addc, Add | Addc | Dels) => checked_other(j, k),
        (Add | Dels, Addc) => checked_other(k, j),
        (Addc, Modn) => checked_modify(j, k),
        (Modn, Addc) => checked_modify(k, j),
        (Addc | Modn, Deln) => apart(j, k),
        (Deln, Addc | Modn) => apart(k, j),
        (Modn, Modn) => modify_modify(j, k),
        (Modn, Dels) => outside(k, j),
        (Dels, Modn) => outside(j, k),
    }
}
