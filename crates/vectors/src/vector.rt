// Vectors and matrices by rows, as lent slices.
ghost use Rattle.std.specs.Prelude.{◌≡◌, ◌&&◌, ◌<◌, length};
ghost use Rattle.vectors.specs.Vector as Vector;
ghost use Rattle.vectors.specs.Refusal.{Square, Wrote};
ghost use Rattle.vectors.specs.Calls.{tells, value_of, dot_answer, norm_answer, weighted_answer, product_answer, row_part};

use crate::refusal;
use crate::refusal::Refusal;

// The number, and +0 where there is none.
pub fn value(x: Result<f64, Refusal>) -> f64
    ensures { result ≡ value_of x }
{
    x.unwrap_or(0.0)
}

// No entry is a NaN or an infinity. The loop runs to the end of v whatever it meets, so that the machine
// can take several entries at a time.
pub fn all_finite(v: &[f64]) -> bool
    ensures { result ≡ Vector.all_finite v.now }
{
    let mut all = true;
    for x in v {
        all &= float::finite(*x);
    }
    all
}

// The entries of two lists.
pub fn both_finite(a: &[f64], b: &[f64]) -> bool
    ensures { result ≡ (Vector.all_finite a.now && Vector.all_finite b.now) }
{
    all_finite(a) && all_finite(b)
}

// +0 throughout.
pub fn clear(w: &mut [f64])
    ensures { w.new ≡ Vector.zeros (length w.old) }
{
    w.fill(0.0);
}

// Row i, as that part of the caller's own matrix.
pub fn row(n: usize, h: &[f64], i: usize) -> &[f64]
    ensures { result.now ≡ row_part n h.now i }
{
    if !refusal::matrix(n, h.len()) || n <= i {
        return &h[..0];
    }
    &h[i * n..i * n + n]
}

// a·b
pub fn dot(n: usize, a: &[f64], b: &[f64]) -> Result<f64, Refusal>
    ensures { tells result ≡ dot_answer n a.now b.now }
{
    Refusal::Size.unless(refusal::vectors(n, a.len(), b.len()))?;
    Ok(dot_any(a, b))
}

// The root of a·a.
pub fn norm(n: usize, a: &[f64]) -> Result<f64, Refusal>
    ensures { tells result ≡ norm_answer n a.now }
{
    Refusal::Size.unless(refusal::all_hold(&[refusal::size(n), a.len() == n]))?;
    Ok(norm_any(a))
}

// a·(H·b)
pub fn weighted_dot(n: usize, a: &[f64], h: &[f64], b: &[f64]) -> Result<f64, Refusal>
    ensures { tells result ≡ weighted_answer n a.now h.now b.now }
{
    Refusal::Size.unless(refusal::shaped(n, h.len(), a.len(), b.len()))?;
    Ok(float::one_nan(weighted_unchecked(n, a, h, b)))
}

// H·d, into out.
pub fn product(n: usize, h: &[f64], d: &[f64], out: &mut [f64]) -> Result<(), Refusal>
    ensures { Wrote (product_answer n h.now d.now out.old) result out.old out.new }
{
    Refusal::Size.unless(refusal::shaped(n, h.len(), d.len(), out.len()))?;
    times_unchecked(n, h, d, out);
    Ok(())
}

// "A dot starts at +0 and adds products from index 0 upward": the dot of lists of any length. What b
// lacks counts as a NaN, and what it has beyond a is not looked at.
pub fn dot_any(a: &[f64], b: &[f64]) -> f64
    ensures { result ≡ Vector.dot a.now b.now }
{
    if b.len() < a.len() {
        return 0.0 / 0.0;
    }
    let mut sum = 0.0;
    for (i, x) in a.iter().enumerate() {
        sum += x * b[i];
    }
    float::one_nan(sum)
}

// The norm of a list of any length.
pub fn norm_any(a: &[f64]) -> f64
    ensures { result ≡ Vector.norm a.now }
{
    root::root(dot_any(a, a))
}

// The largest magnitude of a list of any length, +0 of none: magnitudes are in the order of their bit patterns as whole numbers,
// a NaN's above all. The loop has no jump, so that the machine can take several entries at a time.
pub fn largest(v: &[f64]) -> f64
    ensures { result ≡ Vector.largest v.now }
{
    let mut top: u64 = 0;
    for x in v {
        top = top.max(float::bits_of(*x) % 0x8000_0000_0000_0000);
    }
    float::float_of(top)
}

// Number i of H·d.
pub(crate) fn row_dot(n: usize, h: &[f64], i: usize, d: &[f64]) -> f64
    requires { Square n (length h.now) × (i < n) × (length d.now ≡ n) }
    ensures { result ≡ Vector.times_at n h.now d.now i }
{
    dot_any(row(n, h, i), d)
}

// Each number of H·b is used as soon as it is there, so that no room is needed for them.
pub(crate) fn weighted_unchecked(n: usize, a: &[f64], h: &[f64], b: &[f64]) -> f64
    requires { Square n (length h.now) × (length a.now ≡ n) × (length b.now ≡ n) }
    ensures { result ≡ Vector.weighted n a.now h.now b.now }
{
    let mut total = 0.0;
    for (i, x) in a.iter().enumerate() {
        total += x * row_dot(n, h, i, b);
    }
    total
}

fn times_unchecked(n: usize, h: &[f64], d: &[f64], out: &mut [f64])
    requires { Square n (length h.now) × (length d.now ≡ n) × (length out.old ≡ n) }
    ensures { out.new ≡ Vector.times n h.now d.now }
{
    for (i, y) in out.iter_mut().enumerate() {
        let part = row(n, h, i);
        let mut total = 0.0;
        for (k, x) in part.iter().enumerate() {
            total += x * d[k];
        }
        *y = float::one_nan(total);
    }
}
