// The square root of IEEE 754, worked out from bits over whole numbers: 54 binary digits of the root,
// one a turn, and the last of them rounded away. No tie can occur, since the root of an f64 never
// lies halfway between two of them.
#![tactic(auto)]

ghost use Rattle.std.specs.Prelude.{◌≡◌, ◌+◌, ◌*◌, ◌/◌, ◌%◌, ◌<◌, ◌≤◌, ◌^◌};
ghost use Rattle.std.specs.Float.{binary64};
ghost use Rattle.std.specs.Float.Ieee.{of_bits};
ghost use Rattle.root.specs.Root as Root;
ghost use Rattle.root.specs.Root.{whole_root};

// 2^52, the leading digit of a number's 53: the pattern of a normal number leaves it out.
const LEADING: u64 = 0x10_0000_0000_0000;

// The whole part of the root of m · 2^54, a binary digit a turn. `a` has the digits of m that are
// still to come, at its top; what has been taken in is q · q + r.
fn root_digits(m: u64) -> u64
    requires { m < 2 ^ 54 }
    ensures { (result ≡ whole_root (m * 2 ^ 54)) × (result < 2 ^ 54) }
{
    let mut a = m * 1024;
    let mut q: u64 = 0;
    let mut r: u64 = 0;
    for _ in 0..54u64 {
        let x = r * 4 + a / 0x4000_0000_0000_0000;
        let t = q * 4 + 1;
        r = x;
        q = q * 2;
        if t <= x {
            r = x - t;
            q = q + 1;
        }
        a = (a % 0x4000_0000_0000_0000) * 4;
    }
    q
}

// The pattern of the root of m · 2^g · 2^-2096, m of 53 digits.
fn root_pattern(m: u64, g: u64) -> u64
    requires { (2 ^ 52 ≤ m) × (m < 2 ^ 53) × (g < 4000) }
    ensures { result ≡ g / 2 * 2 ^ 52 + (whole_root (m * 2 ^ (g % 2) * 2 ^ 54) + 1) / 2 }
{
    let w = if g % 2 == 1 { m * 2 } else { m };
    let q = root_digits(w);
    g / 2 * LEADING + (q + 1) / 2
}

// The pattern of the root of the number above zero whose pattern is b.
fn root_bits(b: u64) -> u64
    requires { (0 < b) × (b < 2047 * 2 ^ 52) }
    ensures { (of_bits binary64 result ≡ Root.root (of_bits binary64 b)) × (result < 2047 * 2 ^ 52) }
{
    let x = b / LEADING;
    let t = b % LEADING;
    if 0 < x {
        return root_pattern(t + LEADING, x + 1021);
    }
    // a subnormal number gets its leading digit
    let up = t.leading_zeros() - 11;
    root_pattern(t << up, 1022 - u64::from(up))
}

// The f64 nearest to the root of x. Zero keeps its sign, the infinity is its own root, and a NaN or a
// number below zero gives the NaN.
#[tactic(auto, using(std::proofs::lemmas::Float::not_nan_f64_bits))]
pub fn root(x: f64) -> f64
    ensures { result ≡ Root.root x }
{
    if x > 0.0 && x < f64::INFINITY {
        f64::from_bits(root_bits(x.to_bits()))
    } else if x >= 0.0 {
        x
    } else {
        0.0 / 0.0
    }
}
