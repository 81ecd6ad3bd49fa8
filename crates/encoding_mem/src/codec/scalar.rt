//! The character of a number that is a scalar.

ghost use Rattle.std.specs.Prelude.{◌≡◌};
ghost use Rattle.std.specs.Char.{InScalarRange};

/// The character of a number. The condition is that it is a scalar value: at most 10FFFF, and no
/// surrogate (D800 to DFFF).
#[inline(always)]
pub fn scalar_of(number: u32) -> char
    requires { InScalarRange number }
    ensures { result ≡ number }
{
    unsafe { char::from_u32_unchecked(number) }
}
