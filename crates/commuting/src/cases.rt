// Document 01's table of the pairs that commute, a row each.
ghost use Rattle.std.specs.Prelude.{◌≡◌};
ghost use Rattle.commuting.specs.InnerFootprints.{apart_by, outside_by, keys_differ_by, add_add_by, add_modn_by, addc_other_by, addc_modn_by, modn_modn_by};

use crate::footprint::Footprint;

// Packet and write, `addc` and `deln`, `modn` and `deln`: no overlap.
pub fn apart(j: Footprint, k: Footprint) -> bool
    ensures { result ≡ apart_by j k }
{
    !j.bits.overlaps(k.bits)
}

// `add` and `deln`, `dels` and `modn`: the first does not lie within the second.
pub fn outside(j: Footprint, k: Footprint) -> bool
    ensures { result ≡ outside_by j k }
{
    !j.bits.within(k.bits)
}

// `add` and `dels`.
pub fn keys_differ(j: Footprint, k: Footprint) -> bool
    ensures { result ≡ keys_differ_by j k }
{
    !j.same_key(k)
}

pub fn add_add(j: Footprint, k: Footprint) -> bool
    ensures { result ≡ add_add_by j k }
{
    j.same_action(k) || !j.same_key(k)
}

pub fn add_modify(j: Footprint, k: Footprint) -> bool
    ensures { result ≡ add_modn_by j k }
{
    !j.bits.within(k.bits) || j.same_action(k) && j.same_key(k)
}

pub fn checked_other(j: Footprint, k: Footprint) -> bool
    ensures { result ≡ addc_other_by j k }
{
    j.priority != k.priority || !j.bits.overlaps(k.bits)
}

pub fn checked_modify(j: Footprint, k: Footprint) -> bool
    ensures { result ≡ addc_modn_by j k }
{
    !j.bits.within(k.bits) && checked_other(j, k)
}

pub fn modify_modify(j: Footprint, k: Footprint) -> bool
    ensures { result ≡ modn_modn_by j k }
{
    let m = j.bits;
    let n = k.bits;
    if !m.overlaps(n) {
        return true;
    }
    if !j.same_action(k) {
        return false;
    }
    let apart = !m.within(n) && !n.within(m);
    apart || j.same_key(k)
}
