//! Characters and finite floats as numbers of 32 bits, with what their types say of them.
ghost use Rattle.std.specs.Prelude.{◌≡◌, true, false, MatchOption, from_bits, to_bits};
ghost use Rattle.std.specs.Float.Ieee.{fits};
ghost use Rattle.std.proofs.Math.Utf8.{scalar};
ghost use Rattle.std.specs.Float.{float_is_finite, binary32};

use std::num::f32_from_bits_with_nan;

// Functions of their own: without them it is not proved that a character is a scalar value and that a float has 32 bits.
// That is known of an argument, and not of a field behind a reference.

/// The character's number.
pub(crate) fn number(c: char) -> u32
    ensures value { result ≡ c }
    ensures scalar { scalar c ≡ true }
{
    u32::from(c)
}

/// The bits of a finite float.
pub(crate) fn bits(x: f32) -> u32
    requires { float_is_finite x ≡ true }
    ensures value { result ≡ to_bits binary32 x }
    ensures fits { fits binary32 x ≡ true }
{
    x.to_bits()
}

/// The float with these bits, unless it is infinite or no number.
pub(crate) fn finite_float(bits: u32) -> Option<f32>
    ensures { MatchOption result (float_is_finite (from_bits binary32 bits) ≡ false) (λ x. (x ≡ from_bits binary32 bits) × (float_is_finite (from_bits binary32 bits) ≡ true)) }
{
    let x = f32_from_bits_with_nan(bits);
    x.is_finite().then_some(x)
}
