// What the kernels share: the checks before them, and the end of each.
ghost use Rattle.std.specs.Prelude.{◌≡◌, ◌&&◌, [], ◌∷◌, ◌++◌, ◌+◌, ◌*◌, ◌≤◌, eqb, length, drop, OnOk};
ghost use Rattle.vectors.specs.Vector as Vector;
ghost use Rattle.vectors.specs.Vector.{zeros};
ghost use Rattle.vectors.specs.Slots.{slot};
ghost use Rattle.vectors.specs.Refusal.{all_hold, size, room, checked};
ghost use Rattle.vectors.specs.declared.refusal.Refusal.TheVariants.{Size};
ghost use Rattle.kernels.specs.Kernel as Kernel;
ghost use Rattle.kernels.specs.Kernel.{made, handed_out, handed_over, bounded, Lent, Reached};

use crate::workspace;
use vectors::refusal::Refusal;
use vectors::{refusal, vector};

// That a step was made: in how many passes, and its norm.
#[derive(Clone, Copy, Debug, PartialEq)]
pub struct Stepped {
    pub passes: u64,
    pub norm: f64,
}

// Finite, and above zero.
#[tactic(auto, unfolding(crate::specs::Kernel::positive))]
pub fn positive(x: f64) -> bool
    ensures { result ≡ Kernel.positive x }
{
    float::finite(x) && 0.0 < x
}

// What a session asks of epsilon and the limit, and Steihaug that is called directly.
pub(crate) fn bounded(epsilon: f64, limit: u64) -> bool
    ensures { result ≡ bounded epsilon limit }
{
    refusal::all_hold(&[positive(epsilon), limit <= 10000])
}

// The lengths of a kernel's matrix, gradient, step and scratch.
fn sized(n: usize, h: usize, g: usize, step: usize, scratch: usize) -> bool
    ensures { result ≡ all_hold (size n ∷ eqb h (n * n) ∷ eqb g n ∷ eqb step n ∷ eqb scratch (room n) ∷ []) }
{
    refusal::size(n)
        && refusal::all_hold(&[
            h == n * n,
            g == n,
            step == n,
            scratch == 2 * (n * n) + 8 * n,
        ])
}

// Refusal 1, unless they are right.
pub(crate) fn lent(n: usize, h: usize, g: usize, step: usize, scratch: usize) -> Result<(), Refusal>
    ensures says { result ≡ checked Size (all_hold (size n ∷ eqb h (n * n) ∷ eqb g n ∷ eqb step n ∷ eqb scratch (room n) ∷ [])) }
    ensures right { OnOk result (Lent n h g step scratch) }
{
    Refusal::Size.unless(sized(n, h, g, step, scratch))
}

// The end of every kernel: slot 0 is its step, unless refusal 8 is due. What a refusal leaves in the scratch is for the
// kernel's caller to clear.
pub(crate) fn settle(n: usize, w: &mut [f64], passes: u64) -> Result<Stepped, Refusal>
    requires { n ≤ length w.old }
    ensures { Reached (handed_out (made passes (slot w.old n 0))) result w.old w.new }
{
    let norm = workspace::norm(n, w, 0);
    settle_by(n, w, passes, norm)
}

// The same for a kernel that knows the norm of its step. Where a number of the step is not finite, its norm is not.
pub(crate) fn settle_by(n: usize, w: &mut [f64], passes: u64, norm: f64) -> Result<Stepped, Refusal>
    requires { (n ≤ length w.old) × (norm ≡ Vector.norm (slot w.old n 0)) }
    ensures { Reached (handed_out (made passes (slot w.old n 0))) result w.old w.new }
{
    Refusal::Range.unless(float::finite(norm))?;
    vector::clear(&mut w[n..]);
    Ok(Stepped { passes, norm })
}

// What a session's kernel laid out in w, handed to a direct caller: the step is copied, and its place in
// w cleared. Behind it w is +0 already.
pub(crate) fn hand_over(
    n: usize,
    found: Result<Stepped, Refusal>,
    step: &mut [f64],
    w: &mut [f64],
) -> Result<Stepped, Refusal>
    requires { (length step.old ≡ n) × (n ≤ length w.old) }
    ensures { (result ≡ found) × (step.new ≡ handed_over found (slot w.old n 0) step.old)
        × (w.new ≡ handed_over found (zeros n ++ drop n w.old) w.old) }
{
    let made = found?;
    workspace::put(n, step, 0, workspace::part(n, w, 0));
    vector::clear(&mut w[..n]);
    Ok(made)
}
