// The delay that a program calls with, in milliseconds: the one that an argument gives, or the usual one.
#![tactic(auto)]

ghost use Rattle.std.specs.Prelude.{◌≡◌};
ghost use Rattle.program_delay.specs.Delays.{delay_of};

use std::env::FillError;
use std::rt::Env;

// Where no argument gives another.
pub const DELAY: u32 = 2000;

// The delay that a text gives, if any: a decimal number without leading zeros, and nothing behind it.
#[tactic(auto, unfolding(crate::specs::Delays::delay_of))]
pub fn delay_in(text: &[u8]) -> Option<u32>
    ensures { result ≡ delay_of text.now }
{
    let (value, next) = text_numbers::read_long(text, 0, u32::MAX)?;
    (next == text.len()).then_some(value)
}

// The delay of an argument, or the usual one where it is left out. One that is longer than any delay gives none.
fn given_by<R: Env>(rt: &R, i: usize) -> Option<u32> {
    let mut text = [0u8; 10];
    match rt.arg(i, &mut text) {
        Ok(n) => delay_in(&text[..n]),
        Err(FillError::NotPresent) => Some(DELAY),
        Err(FillError::TooLong) => None,
    }
}

// The delay of an argument, or the usual one where it is left out; where it gives none, says so on standard error.
pub fn delay_arg<R: Env + Eprint>(rt: &R, i: usize) -> Option<u32> {
    let delay = given_by(rt, i);
    if delay.is_none() {
        let _ = rt.eprintln("delay not a decimal number without leading zeros up to 4294967295");
    }
    delay
}
