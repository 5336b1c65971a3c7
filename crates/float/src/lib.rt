// What Rust's f64 offers, is_nan, abs and min written out: finite, is_nan, abs, min, from_bits and to_bits,
// each total, with one NaN, and equal to a definition of specs/Numbers.antt or of the language's own account
// of IEEE 754.
#![tactic(auto)]

ghost use Rattle.std.specs.Prelude.{◌≡◌};
ghost use Rattle.std.specs.Float.{binary64};
ghost use Rattle.std.specs.Float.Ieee.{is_nan, of_bits, to_bits};
ghost use Rattle.float.specs.Numbers as Numbers;

// Whether x is neither a NaN nor an infinity.
#[tactic(auto, using(crate::proofs::Scalars::finite_is))]
pub fn finite(x: f64) -> bool
    ensures { result ≡ Numbers.finite x }
{
    x.is_finite()
}

// A NaN, and nothing else, differs from itself.
pub fn is_nan(x: f64) -> bool
    ensures { result ≡ is_nan x }
{
    x != x
}

// Rust's x.abs().
pub fn magnitude(x: f64) -> f64
    ensures { result ≡ Numbers.magnitude x }
{
    if x < 0.0 {
        return -x;
    }
    // -0 too
    if x == 0.0 {
        return 0.0;
    }
    one_nan(x)
}

// Rust's x.min(y) for an x that is no NaN. The library's `min` leaves open which of +0 and -0 it
// answers, and answers y for an x that is a NaN.
#[tactic(auto, unfolding(crate::specs::Numbers::smaller))]
pub fn smaller(x: f64, y: f64) -> f64
    ensures { result ≡ Numbers.smaller x y }
{
    if y < x { y } else { one_nan(x) }
}

// x, and of all NaNs the one with bits 7ff8000000000000. Definitions know one NaN, a machine many:
// this is the last thing that happens to a number that is handed out.
pub fn one_nan(x: f64) -> f64
    ensures { result ≡ x }
{
    if x != x { 0.0 / 0.0 } else { x }
}

// The f64 of a bit pattern: the one NaN for every NaN's.
#[tactic(auto, using(crate::proofs::Nan::nan_made, std::proofs::lemmas::Float::not_nan_f64_bits))]
pub fn float_of(bits: u64) -> f64
    ensures { result ≡ of_bits binary64 bits }
{
    if bits % 0x8000_0000_0000_0000 > 0x7ff0_0000_0000_0000 {
        0.0 / 0.0
    } else {
        f64::from_bits(bits)
    }
}

// The bit pattern of an f64: 7ff8000000000000 for every NaN.
pub fn bits_of(x: f64) -> u64
    ensures { result ≡ to_bits binary64 x }
{
    if x != x {
        0x7ff8_0000_0000_0000
    } else {
        x.to_bits()
    }
}
