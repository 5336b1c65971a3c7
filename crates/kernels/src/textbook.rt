// A dogleg with the textbook's first leg: where the ported one ends in a zero step, this one goes down the gradient to the radius
// (Nocedal and Wright, Numerical Optimization, section 4.1).
ghost use Rattle.std.specs.Prelude.{◌≡◌, true, ◌*◌, ◌≤◌, length};
ghost use Rattle.vectors.specs.Slots.{slot};
ghost use Rattle.vectors.specs.Refusal.{Roomy};
ghost use Rattle.kernels.specs.Kernel.{Reached, Took, called};
ghost use Rattle.kernels.specs.Subproblem.{on};
ghost use Rattle.kernels.specs.Dogleg as Dogleg;
ghost use Rattle.kernels.specs.Textbook as Textbook;

use crate::choice::Kernel;
use crate::dogleg::Measures;
use crate::kernel::Stepped;
use crate::subproblem::Subproblem;
use crate::{cauchypoint, dogleg, kernel, workspace};
use vectors::refusal::Refusal;
use vectors::vector;

// How far along v the second leg meets the radius.
#[tactic(auto, unfolding(crate::specs::Textbook::along))]
fn along(m: Measures, delta_squared: f64) -> f64
    ensures { result ≡ Textbook.along m.c m.k m.u delta_squared }
{
    let Measures { c, k, u } = m;
    (root::root(c * c + k * (delta_squared - u)) - c) / k
}

// Slot 0 has pb, which is outside, and takes the step.
fn outside(problem: &Subproblem, curvature: f64, w: &mut [f64])
    requires { 3 * problem.now.n ≤ length w.old }
    ensures { slot w.new problem.now.n 0
        ≡ Textbook.legs problem.now.n problem.now.radius (slot w.old problem.now.n 0)
        (Dogleg.towards problem.now.n problem.now.gradient.now curvature) }
{
    let n = problem.n;
    dogleg::unconstrained(n, w, problem.gradient, curvature);
    let norm = workspace::norm(n, w, 1);
    // equality ends on the first leg: its factor is 1 there
    if norm >= problem.radius {
        let factor = problem.radius / norm;
        workspace::map(n, w, 0, 1, |u| u * factor);
        return;
    }
    let far = along(dogleg::measure(n, w), problem.radius * problem.radius);
    workspace::zip(n, w, 0, 1, 2, |u, v| u + v * far);
}

// The kernel, over a scratch of the right size.
pub(crate) fn lay(problem: &Subproblem, w: &mut [f64]) -> Result<Stepped, Refusal>
    requires { Roomy problem.now.n (length w.old) }
    ensures { Reached (on Textbook.textbook_dogleg problem.now) result w.old w.new }
{
    let curvature = problem.curvature(problem.gradient);
    // a NaN is not above 0
    if !(0.0 < curvature) {
        return cauchypoint::lay_by(problem, curvature, vector::norm_any(problem.gradient), w);
    }
    dogleg::newton(problem, w)?;
    let norm = workspace::norm(problem.n, w, 0);
    if norm <= problem.radius {
        return kernel::settle_by(problem.n, w, 0, norm);
    }
    outside(problem, curvature, w);
    kernel::settle(problem.n, w, 0)
}

// The kernel for a direct caller.
pub fn textbook_dogleg(
    n: usize,
    radius: f64,
    gradient: &[f64],
    hessian: &[f64],
    step: &mut [f64],
    scratch: &mut [f64],
) -> Result<Stepped, Refusal>
    ensures { Took (called true Textbook.textbook_dogleg n radius gradient.now hessian.now step.old scratch.old)
        result step.old step.new scratch.old scratch.new }
{
    Kernel::Textbook.call(n, radius, gradient, hessian, step, scratch)
}
