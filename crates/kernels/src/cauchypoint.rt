// CauchyPoint: the minimum of the model along the steepest descent, within the radius
// (Nocedal and Wright, Numerical Optimization, section 4.1).
ghost use Rattle.std.specs.Prelude.{◌≡◌, true, length};
ghost use Rattle.vectors.specs.Refusal.{Roomy};
ghost use Rattle.kernels.specs.Kernel.{Reached, Took, called};
ghost use Rattle.kernels.specs.Subproblem.{on};
ghost use Rattle.kernels.specs.CauchyPoint as CauchyPoint;

use crate::choice::Kernel;
use crate::kernel::Stepped;
use crate::subproblem::Subproblem;
use crate::{kernel, workspace};
use vectors::refusal::Refusal;
use vectors::vector;

// How far along −g, of the way to the radius.
#[tactic(auto, unfolding(crate::specs::CauchyPoint::tau))]
fn tau(radius: f64, curvature: f64, norm: f64) -> f64
    ensures { result ≡ CauchyPoint.tau radius curvature norm }
{
    if curvature <= 0.0 {
        1.0
    } else {
        float::smaller(1.0, norm * norm * norm / (radius * curvature))
    }
}

// What g is multiplied by.
#[tactic(auto, unfolding(crate::specs::CauchyPoint::factor))]
fn factor(radius: f64, curvature: f64, norm: f64) -> f64
    ensures { result ≡ CauchyPoint.factor radius curvature norm }
{
    -tau(radius, curvature, norm) * radius / norm
}

// The kernel, over a scratch of the right size.
pub(crate) fn lay(problem: &Subproblem, w: &mut [f64]) -> Result<Stepped, Refusal>
    requires { Roomy problem.now.n (length w.old) }
    ensures { Reached (on CauchyPoint.cauchy_point problem.now) result w.old w.new }
{
    let norm = vector::norm_any(problem.gradient);
    let curvature = problem.curvature(problem.gradient);
    lay_by(problem, curvature, norm, w)
}

// The same for who knows g·H·g and ‖g‖.
pub(crate) fn lay_by(
    problem: &Subproblem,
    curvature: f64,
    norm: f64,
    w: &mut [f64],
) -> Result<Stepped, Refusal>
    requires { Roomy problem.now.n (length w.old) }
    ensures { Reached (CauchyPoint.along problem.now.n problem.now.radius curvature norm problem.now.gradient.now)
        result w.old w.new }
{
    let factor = factor(problem.radius, curvature, norm);
    workspace::put_times(problem.n, w, 0, problem.gradient, factor);
    kernel::settle(problem.n, w, 0)
}

// The kernel for a direct caller.
pub fn cauchy_point(
    n: usize,
    radius: f64,
    gradient: &[f64],
    hessian: &[f64],
    step: &mut [f64],
    scratch: &mut [f64],
) -> Result<Stepped, Refusal>
    ensures { Took (called true CauchyPoint.cauchy_point n radius gradient.now hessian.now step.old scratch.old)
        result step.old step.new scratch.old scratch.new }
{
    Kernel::CauchyPoint.call(n, radius, gradient, hessian, step, scratch)
}
