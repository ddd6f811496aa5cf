// Whether each event stands in an order.
ghost use Rattle.std.specs.Prelude.{◌≡◌, ◌↔◌, true, false, ℕ, ◌<◌, ◌≤◌, get_or, IsTrue, EachIndex};
ghost use Rattle.basics.specs.Searches.{has};
ghost use Rattle.order_check.specs.Schedule.{complete};

// A flag for each number: whether it stands in the order.
fn flags_of(order: &[u8]) -> [bool; 256]
    ensures { (i : ℕ) → i < 256 → get_or result i false ≡ has i order.now }
{
    let mut flags = [false; 256];
    for &event in order {
        flags[usize::from(event)] = true;
    }
    flags
}

fn all_set(flags: &[bool]) -> bool
    ensures { IsTrue result ↔ EachIndex flags.now (λ i. get_or flags.now i false ≡ true) }
{
    flags.iter().all(|set| *set)
}

// The order's length is n, and each event 0 .. n-1 stands in it.
pub fn is_complete(order: &[u8], n: usize) -> bool
    requires { n ≤ 256 }
    ensures { result ≡ complete n order.now }
{
    order.len() == n && all_set(&flags_of(order)[..n])
}
