// Dogleg: along the steepest descent to its minimum, then towards Newton's point, up to the radius
// (Nocedal and Wright, Numerical Optimization, section 4.1).
ghost use Rattle.std.specs.Prelude.{◌≡◌, true, ◌*◌, ◌≤◌, length};
ghost use Rattle.vectors.specs.Slots.{slot, Puts};
ghost use Rattle.vectors.specs.Refusal.{Roomy, stands_for};
ghost use Rattle.kernels.specs.Kernel.{Reached, Took, called};
ghost use Rattle.kernels.specs.Subproblem.{on};
ghost use Rattle.kernels.specs.Dogleg as Dogleg;

use crate::choice::Kernel;
use crate::kernel::Stepped;
use crate::subproblem::Subproblem;
use crate::{inverse, kernel, workspace};
use vectors::refusal::Refusal;
use vectors::vector;

// A candidate outside [0, 2] is not kept; one that is kept replaces a lesser or equal one.
fn keep(held: f64, t: f64) -> f64
    ensures { result ≡ Dogleg.keep held t }
{
    if t >= 0.0 && t <= 2.0 && t >= held {
        t
    } else {
        held
    }
}

// c, k and u.
#[derive(Clone, Copy)]
pub struct Measures {
    pub c: f64,
    pub k: f64,
    pub u: f64,
}

// How far along the bent path: its first leg ends at 1, its second at 2.
#[tactic(auto, unfolding(crate::specs::Dogleg::candidates))]
fn tau(m: Measures, delta_squared: f64) -> f64
    ensures { result ≡ Dogleg.tau m.c m.k m.u delta_squared }
{
    let Measures { c, k, u } = m;
    let t = root::root(c * c + delta_squared * k - k * u);
    let first = keep(0.0, -(t + c - k) / k);
    let second = keep(first, (t - c + k) / k);
    keep(second, (2.0 * c + delta_squared - u) / (2.0 * c))
}

// Slot 0 takes the point at tau on the path, where slot 1 is pu and slot 2 is v.
fn bent(n: usize, w: &mut [f64], tau: f64)
    requires { 3 * n ≤ length w.old }
    ensures { slot w.new n 0 ≡ Dogleg.bent n tau (slot w.old n 1) (slot w.old n 2) }
{
    if tau < 1.0 {
        workspace::map(n, w, 0, 1, |u| u * tau);
    } else {
        let beyond = tau - 1.0;
        workspace::zip(n, w, 0, 1, 2, |u, v| u + v * beyond);
    }
}

// Slot 0 takes pb, unless the inverse is refused.
pub(crate) fn newton(problem: &Subproblem, w: &mut [f64]) -> Result<(), Refusal>
    requires { Roomy problem.now.n (length w.old) }
    ensures { stands_for result (slot w.new problem.now.n 0) ≡ Dogleg.newton problem.now.n problem.now.gradient.now problem.now.hessian.now }
{
    let n = problem.n;
    inverse::eliminate(n, w, problem.hessian)?;
    inverse::inverse_times(n, w, 0, problem.gradient);
    workspace::map(n, w, 0, 0, |x| x * -1.0);
    Ok(())
}

// Slot 1 takes pu, by the curvature g·H·g; slot 0 stays.
pub(crate) fn unconstrained(n: usize, w: &mut [f64], g: &[f64], curvature: f64)
    requires { (length g.now ≡ n) × (3 * n ≤ length w.old) }
    ensures { Puts w.old n 1 (Dogleg.towards n g.now curvature) w.new }
{
    workspace::put_times(n, w, 1, g, -vector::dot_any(g, g) / curvature);
}

// Slot 2 takes v, of pb in slot 0 and pu in slot 1.
pub(crate) fn measure(n: usize, w: &mut [f64]) -> Measures
    requires { 3 * n ≤ length w.old }
    ensures { Dogleg.Measures_in n w.old result w.new }
{
    workspace::zip(n, w, 2, 0, 1, |b, u| b - u);
    Measures {
        c: workspace::dot(n, w, 1, 2),
        k: workspace::dot(n, w, 2, 2),
        u: workspace::dot(n, w, 1, 1),
    }
}

// Slot 0 has pb, and takes the step.
fn step(problem: &Subproblem, w: &mut [f64])
    requires { 3 * problem.now.n ≤ length w.old }
    ensures { slot w.new problem.now.n 0
        ≡ Dogleg.dogleg_step problem.now.n problem.now.radius (slot w.old problem.now.n 0)
        (Dogleg.unconstrained problem.now.n problem.now.gradient.now problem.now.hessian.now) }
{
    let n = problem.n;
    if workspace::norm(n, w, 0) <= problem.radius {
        return;
    }
    let curvature = problem.curvature(problem.gradient);
    unconstrained(n, w, problem.gradient, curvature);
    let tau = tau(measure(n, w), problem.radius * problem.radius);
    bent(n, w, tau);
}

// The kernel, over a scratch of the right size.
pub(crate) fn lay(problem: &Subproblem, w: &mut [f64]) -> Result<Stepped, Refusal>
    requires { Roomy problem.now.n (length w.old) }
    ensures { Reached (on Dogleg.dogleg problem.now) result w.old w.new }
{
    newton(problem, w)?;
    step(problem, w);
    kernel::settle(problem.n, w, 0)
}

// The kernel for a direct caller.
pub fn dogleg(
    n: usize,
    radius: f64,
    gradient: &[f64],
    hessian: &[f64],
    step: &mut [f64],
    scratch: &mut [f64],
) -> Result<Stepped, Refusal>
    ensures { Took (called true Dogleg.dogleg n radius gradient.now hessian.now step.old scratch.old)
        result step.old step.new scratch.old scratch.new }
{
    Kernel::Dogleg.call(n, radius, gradient, hessian, step, scratch)
}
