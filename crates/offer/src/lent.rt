// Vectors that a call is lent: their lengths, and writing them whole. They stay parameters of their own, and no struct: each call
// lends other ones of them to be written, and every caller, in Rust and in C, has its own.
ghost use Rattle.std.specs.Prelude.{◌≡◌, ◌&&◌};
ghost use Rattle.vectors.specs.Vector.{all_finite};
ghost use Rattle.offer.specs.Offer.{all_sized};
ghost use Rattle.offer.specs.Calls.{replaced};

use vectors::{refusal, vector};

// What a proposal is lent.
pub fn all_sized(
    n: usize,
    point: &[f64],
    gradient: &[f64],
    hessian: &[f64],
    step: &[f64],
    trial: &[f64],
    scratch: &[f64],
) -> bool
    ensures { result ≡ all_sized n point.now gradient.now hessian.now step.now trial.now scratch.now }
{
    refusal::size(n)
        && refusal::all_hold(&[
            point.len() == n,
            gradient.len() == n,
            hessian.len() == n * n,
            step.len() == n,
            trial.len() == n,
            scratch.len() == 2 * (n * n) + 8 * n,
        ])
}

// The entries that a proposal reads.
pub fn inputs_finite(point: &[f64], gradient: &[f64], hessian: &[f64]) -> bool
    ensures { result ≡ (all_finite point.now && all_finite gradient.now && all_finite hessian.now) }
{
    vector::both_finite(point, gradient) && vector::all_finite(hessian)
}

// All numbers of a vector of the same length. The list is handed out, hence one_nan.
pub fn copy(from: &[f64], to: &mut [f64])
    ensures { to.new ≡ replaced from.now to.old }
{
    if to.len() != from.len() {
        return;
    }
    for (i, x) in to.iter_mut().enumerate() {
        *x = float::one_nan(from[i]);
    }
}
