// Bytes and numbers put at a place of a buffer. What lies past the buffer's end is dropped and counts all the same,
// so a writer into no room at all says how much room it needs.
ghost use Rattle.std.specs.Prelude.{◌≡◌, ◌≤◌, ◌<◌, ◌^◌, set};
ghost use Rattle.text_numbers.specs.Print.{print_number, hex_digit, hexadecimal, print_hex};
ghost use Rattle.text_numbers.specs.Inner.{Put};

// A byte, where the buffer has that place. Not by `get_mut`: what a write through it leaves in a slice is not proved, but for the length.
pub fn put_byte(out: &mut [u8], at: usize, b: u8)
    ensures { out.new ≡ set out.old at b }
{
    if at < out.len() {
        out[at] = b;
    }
}

// The bytes of src.
pub fn put_bytes(out: &mut [u8], at: usize, src: &[u8]) -> usize
    requires { at < 2 ^ 32 }
    ensures { Put src.now at out.old result out.new }
{
    if at < out.len() {
        let n = src.len().min(out.len() - at);
        out[at..at + n].copy_from_slice(&src[..n]);
    }
    at + src.len()
}

// A number in decimal.
pub fn put_number(out: &mut [u8], at: usize, v: usize) -> usize
    requires { at < 2 ^ 32 }
    ensures { Put (print_number v) at out.old result out.new }
{
    if v < 10 {
        put_byte(out, at, b'0' + v as u8);
        return at + 1;
    }
    let n = put_number(out, at, v / 10);
    put_byte(out, n, b'0' + (v % 10) as u8);
    n + 1
}

// The lowercase hexadecimal digit of a number below 16.
fn hex_digit(n: u8) -> u8
    requires { n < 16 }
    ensures { result ≡ hex_digit n }
{
    if n < 10 { b'0' + n } else { b'a' + (n - 10) }
}

// The last k hexadecimal digits of a number.
fn put_hex_digits(out: &mut [u8], at: usize, v: u32, k: usize) -> usize
    requires { (at < 2 ^ 32) × (k ≤ 8) }
    ensures { Put (hexadecimal k v) at out.old result out.new }
{
    if k == 0 {
        return at;
    }
    let n = put_hex_digits(out, at, v / 16, k - 1);
    let d = hex_digit((v % 16) as u8);
    put_byte(out, n, d);
    n + 1
}

// A number as eight hexadecimal digits.
pub fn put_hex(out: &mut [u8], at: usize, v: u32) -> usize
    requires { at < 2 ^ 32 }
    ensures { Put (print_hex v) at out.old result out.new }
{
    put_hex_digits(out, at, v, 8)
}
