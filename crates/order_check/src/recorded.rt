// The recorded order.
ghost use Rattle.std.specs.Prelude.{◌≡◌, ℕ, ◌<◌, length, get_or};

// 0, 1, 2 and so on: the first n bytes are the recorded order of n events.
pub fn recorded_order() -> [u8; 256]
    ensures { (length result ≡ 256) × ((i : ℕ) → i < 256 → get_or result i 0 ≡ i) }
{
    std::array::from_fn(|i| i as u8)
}
