// Steihaug: conjugate gradients as far as the radius
// (Nocedal and Wright, Numerical Optimization, section 7.1).
// In the scratch w, p is slot 0, r and then s slot 1, d slot 2, H·d slot 3, and q, or p + d·tau, slot 6.
ghost use Rattle.std.specs.Prelude.{◌≡◌, ◌∷◌, [], map, ◌*◌, ◌≤◌, length};
ghost use Rattle.vectors.specs.Slots.{slot};
ghost use Rattle.vectors.specs.Refusal.{Roomy, given};
ghost use Rattle.kernels.specs.Kernel.{bounded, made, handed_out, Reached, Took, called};
ghost use Rattle.vectors.specs.Calls.{tells};
ghost use Rattle.kernels.specs.Subproblem.{on, valued_in, pass_of, run_of};
ghost use Rattle.kernels.specs.Steihaug as Steihaug;
ghost use Rattle.kernels.specs.Steihaug.{listed, root_of, state_in, Keeps, passed, ran, ended};

use crate::choice::Kernel;
use crate::kernel::Stepped;
use crate::subproblem::Subproblem;
use crate::{kernel, workspace};
use vectors::refusal::Refusal;
use vectors::vector;

// The roots, in document 01's order: two, and mostly no third.
#[derive(Clone, Copy)]
pub struct Roots {
    pub first: f64,
    pub second: f64,
    pub third: Option<f64>,
}

// A root, and the model at p + d·tau.
#[derive(Clone, Copy)]
pub struct Valued {
    pub tau: f64,
    pub model: f64,
}

// How a pass that found its root ended: with p + d·tau, with q, or on to the next with r·r.
#[derive(Clone, Copy)]
pub enum Turn {
    Boundary,
    Inside,
    WentOn(f64),
}

// Where the passes ended, and how many had begun: at the limit with p, in slot 0; or in a pass with p + d·tau,
// (a) or (b), or with q, (c), in slot 6.
#[derive(Clone, Copy)]
pub enum Exit {
    Limit(u64),
    Boundary(u64),
    Inside(u64),
}

#[tactic(auto, unfolding(crate::specs::Steihaug::roots))]
fn roots_of(a: f64, b: f64, c: f64, delta: f64) -> Roots
    ensures { listed result ≡ Steihaug.roots a b c delta }
{
    let t = root::root(-a * b + b * delta + c * c);
    let first = -(t + c) / b;
    let second = (t - c) / b;
    let third = if float::finite(first) && float::finite(second) {
        None
    } else {
        Some((delta - a) / (2.0 * c))
    };
    Roots {
        first,
        second,
        third,
    }
}

#[tactic(auto, unfolding(crate::specs::Steihaug::roots_at))]
fn roots_at(n: usize, w: &[f64], radius: f64) -> Roots
    requires { 8 * n ≤ length w.now }
    ensures { listed result ≡ Steihaug.roots_at radius (slot w.now n 0) (slot w.now n 2) }
{
    let a = workspace::dot(n, w, 0, 0);
    let b = workspace::dot(n, w, 2, 2);
    let c = workspace::dot(n, w, 0, 2);
    roots_of(a, b, c, radius * radius)
}

fn value(problem: &Subproblem, w: &mut [f64], tau: f64) -> Valued
    requires { 8 * problem.now.n ≤ length w.old }
    ensures { (result ≡ valued_in problem.now w.old tau) × Keeps problem.now.n w.old w.new }
{
    workspace::zip(problem.n, w, 6, 0, 2, |p, d| p + d * tau);
    let model = problem.model(workspace::part(problem.n, w, 6));
    Valued { tau, model }
}

// The one held stays on a tie.
fn lesser(held: Valued, next: Valued) -> Valued
    ensures { result ≡ Steihaug.lesser held next }
{
    if next.model < held.model { next } else { held }
}

#[tactic(auto, unfolding(crate::specs::Steihaug::by_model))]
fn least(a: Valued, b: Valued, c: Valued) -> Result<f64, Refusal>
    ensures { tells result ≡ Steihaug.by_model (a ∷ b ∷ c ∷ []) }
{
    if float::is_nan(a.model) || float::is_nan(b.model) || float::is_nan(c.model) {
        return Err(Refusal::Root);
    }
    Ok(lesser(lesser(a, b), c).tau)
}

// Of two roots the second stands for the third as well: it can't take its own place.
fn by_model(problem: &Subproblem, w: &mut [f64], roots: Roots) -> Result<f64, Refusal>
    requires { 8 * problem.now.n ≤ length w.old }
    ensures { (tells result ≡ Steihaug.by_model (map (valued_in problem.now w.old) (listed roots)))
        × Keeps problem.now.n w.old w.new }
{
    let a = value(problem, w, roots.first);
    let b = value(problem, w, roots.second);
    match roots.third {
        None => least(a, b, b),
        Some(third) => {
            let c = value(problem, w, third);
            least(a, b, c)
        }
    }
}

// The one held stays on a tie.
fn larger(held: Option<f64>, t: f64) -> Option<f64>
    ensures { root_of result ≡ Steihaug.larger (root_of held) t }
{
    let takes = match held {
        Some(x) => x < t,
        None => 0.0 <= t,
    };
    if takes { Some(t) } else { held }
}

#[tactic(auto, unfolding(crate::specs::Steihaug::forward))]
fn forward(roots: Roots) -> Result<f64, Refusal>
    ensures { tells result ≡ Steihaug.forward (listed roots) }
{
    let two = larger(larger(None, roots.first), roots.second);
    let all = match roots.third {
        None => two,
        Some(third) => larger(two, third),
    };
    all.ok_or(Refusal::Root)
}

// p + d·tau, into slot 6.
fn stop_at(n: usize, w: &mut [f64], tau: f64) -> Turn
    requires { 8 * n ≤ length w.old }
    ensures { passed (Ok result) n w.new ≡ Steihaug.stops_at n (slot w.old n 0) (slot w.old n 2) (given tau) }
{
    workspace::zip(n, w, 6, 0, 2, |p, d| p + d * tau);
    Turn::Boundary
}

// Past the first test: H·d is in slot 3.
fn straight(
    n: usize,
    w: &mut [f64],
    radius: f64,
    small: f64,
    rtr: f64,
    alpha: f64,
) -> Result<Turn, Refusal>
    requires { 8 * n ≤ length w.old }
    ensures { passed result n w.new ≡ Steihaug.straight n radius small (state_in w.old n rtr) (slot w.old n 3) alpha }
{
    workspace::zip(n, w, 6, 0, 2, |p, d| p + d * alpha);
    // equality is already outside
    if workspace::norm(n, w, 6) >= radius {
        let roots = roots_at(n, w, radius);
        let tau = forward(roots)?;
        return Ok(stop_at(n, w, tau));
    }
    workspace::zip(n, w, 1, 1, 3, |r, hd| r + hd * alpha);
    if workspace::norm(n, w, 1) < small {
        return Ok(Turn::Inside);
    }
    // on to the next pass, from q and s
    let ss = workspace::dot(n, w, 1, 1);
    let beta = ss / rtr;
    workspace::zip(n, w, 2, 1, 2, |s, d| s * -1.0 + d * beta);
    workspace::copy(n, w, 0, 6);
    Ok(Turn::WentOn(ss))
}

// `small` is epsilon·‖g‖.
fn pass(problem: &Subproblem, w: &mut [f64], small: f64, rtr: f64) -> Result<Turn, Refusal>
    requires { 8 * problem.now.n ≤ length w.old }
    ensures { passed result problem.now.n w.new ≡ pass_of problem.now small (state_in w.old problem.now.n rtr) }
{
    let n = problem.n;
    workspace::times(n, w, 3, problem.hessian, 2);
    let dhd = workspace::dot(n, w, 2, 3);
    // no curvature, or a negative one, along d
    if dhd <= 0.0 {
        let roots = roots_at(n, w, problem.radius);
        let tau = by_model(problem, w, roots)?;
        return Ok(stop_at(n, w, tau));
    }
    straight(n, w, problem.radius, small, rtr, rtr / dhd)
}

// The passes, as many as begin, from what `start` left in w.
fn run(
    problem: &Subproblem,
    w: &mut [f64],
    small: f64,
    first: f64,
    limit: u64,
) -> Result<Exit, Refusal>
    requires { 8 * problem.now.n ≤ length w.old }
    ensures { ran result problem.now.n w.new ≡ run_of problem.now small limit 0 (state_in w.old problem.now.n first) }
{
    let mut rtr = first;
    let mut passes = 0;
    let end = loop {
        if passes >= limit {
            break Exit::Limit(passes);
        }
        let turn = pass(problem, w, small, rtr)?;
        passes += 1;
        match turn {
            Turn::Boundary => break Exit::Boundary(passes),
            Turn::Inside => break Exit::Inside(passes),
            Turn::WentOn(next) => rtr = next,
        }
    };
    Ok(end)
}

// p = 0, r = g, d = r·(−1); r·r is returned.
fn start(n: usize, w: &mut [f64], g: &[f64]) -> f64
    requires { (length g.now ≡ n) × (8 * n ≤ length w.old) }
    ensures { state_in w.new n result ≡ Steihaug.start n g.now }
{
    vector::clear(&mut w[..n]);
    workspace::put(n, w, 1, g);
    workspace::put_times(n, w, 2, g, -1.0);
    vector::dot_any(g, g)
}

// The point that a pass chose, in slot 6, is the step.
fn settle_chosen(n: usize, w: &mut [f64], passes: u64) -> Result<Stepped, Refusal>
    requires { 8 * n ≤ length w.old }
    ensures { Reached (handed_out (made passes (slot w.old n 6))) result w.old w.new }
{
    workspace::copy(n, w, 0, 6);
    kernel::settle(n, w, passes)
}

// The point at which the passes ended is the step.
fn settle(n: usize, w: &mut [f64], end: Exit) -> Result<Stepped, Refusal>
    requires { 8 * n ≤ length w.old }
    ensures { Reached (handed_out (ended end n w.old)) result w.old w.new }
{
    match end {
        Exit::Limit(passes) => kernel::settle(n, w, passes),
        Exit::Boundary(passes) | Exit::Inside(passes) => settle_chosen(n, w, passes),
    }
}

// The kernel, over a scratch of the right size.
pub(crate) fn lay(
    problem: &Subproblem,
    epsilon: f64,
    limit: u64,
    w: &mut [f64],
) -> Result<Stepped, Refusal>
    requires { Roomy problem.now.n (length w.old) }
    ensures { Reached (on (Steihaug.steihaug epsilon limit) problem.now) result w.old w.new }
{
    let norm = vector::norm_any(problem.gradient);
    let rtr = start(problem.n, w, problem.gradient);
    if norm < epsilon {
        return kernel::settle(problem.n, w, 0);
    }
    let end = run(problem, w, epsilon * norm, rtr, limit)?;
    settle(problem.n, w, end)
}

// The kernel for a direct caller.
pub fn steihaug(
    n: usize,
    radius: f64,
    epsilon: f64,
    limit: u64,
    gradient: &[f64],
    hessian: &[f64],
    step: &mut [f64],
    scratch: &mut [f64],
) -> Result<Stepped, Refusal>
    ensures { Took (called (bounded epsilon limit) (Steihaug.steihaug epsilon limit) n radius gradient.now hessian.now step.old scratch.old)
        result step.old step.new scratch.old scratch.new }
{
    let kernel = Kernel::Steihaug { epsilon, limit };
    kernel.call(n, radius, gradient, hessian, step, scratch)
}
