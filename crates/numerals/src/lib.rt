// How numbers stand in texts, apart from any one text: a float by its bits, and a whole number by its digits.

#![tactic(auto)]

ghost use Rattle.std.specs.Prelude.{◌≡◌, ◌^◌, ◌≤◌, ◌<◌, IsTrue, SomeIff};
ghost use Rattle.std.specs.Float.{binary64};
ghost use Rattle.std.specs.Float.Ieee.{of_bits, to_bits};
ghost use Rattle.numerals.specs.Digits.{digit_of, all_digits, value};

use std::num::{f64_from_bits_with_nan, f64_to_bits_with_nan};

// The float with these bits; any NaN's bits give the one NaN.
pub fn float_of(bits: u64) -> f64
    ensures { result ≡ of_bits binary64 bits }
{
    f64_from_bits_with_nan(bits)
}

// The bits of a float; 7ff8000000000000 for a NaN.
pub fn bits_of(x: f64) -> u64
    ensures { result ≡ to_bits binary64 x }
{
    f64_to_bits_with_nan(x)
}

// The digit that a byte is, `0` to `9` or `a` to `f`.
pub fn digit(x: u8) -> Option<u64>
    ensures { SomeIff result (digit_of x < 16) (digit_of x) }
{
    match x {
        b'0'..=b'9' => Some(u64::from(x - b'0')),
        b'a'..=b'f' => Some(u64::from(x - b'a') + 10),
        _ => None,
    }
}

// The number that a field's digits in this base are; none where the base is above 16, a byte is no digit, or the number does not fit 64 bits.
#[tactic(auto, using(crate::proofs::Digits::too_large), unfolding(crate::specs::Digits::all_digits, crate::specs::Digits::value))]
pub fn from_digits(field: &[u8], base: u64) -> Option<u64>
    ensures { SomeIff result ((base ≤ 16) × IsTrue (all_digits base field.now) × (value base 0 field.now < 2 ^ 64)) (value base 0 field.now) }
{
    if base > 16 {
        return None;
    }
    let mut number: u64 = 0;
    for x in field {
        let d = digit(*x)?;
        if d >= base {
            return None;
        }
        number = number.checked_mul(base)?.checked_add(d)?;
    }
    Some(number)
}
