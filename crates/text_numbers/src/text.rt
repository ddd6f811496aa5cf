// A byte of a text, and a key in it.
ghost use Rattle.std.specs.Prelude.{◌≡◌, get_or, drop};
ghost use Rattle.text_numbers.specs.Reading.{starts_with};

// The byte at a place, 0 past the end.
pub fn byte_at(s: &[u8], i: usize) -> u8
    ensures { result ≡ get_or s.now i 0 }
{
    s.get(i).copied().unwrap_or(0)
}

// Whether a key stands at a place of a text.
pub fn starts_with(s: &[u8], at: usize, key: &[u8]) -> bool
    ensures { result ≡ starts_with key.now (drop at s.now) }
{
    s.get(at..).unwrap_or(&[]).starts_with(key)
}
