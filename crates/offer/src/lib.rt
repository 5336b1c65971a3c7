// What every session that offers a step shares: its sizes and ranges, the kernel's run, and the trial point.
#![tactic(auto)]

pub mod lent;
pub mod range;
pub mod session;
pub mod state;

ghost use Rattle.std.specs.Prelude.{◌≡◌, ◌+◌, ◌≤◌, length};
ghost use Rattle.vectors.specs.Vector as Vector;
ghost use Rattle.vectors.specs.Vector.{plus};
ghost use Rattle.vectors.specs.Slots.{slot, Puts};
ghost use Rattle.vectors.specs.Refusal.{Square};
ghost use Rattle.kernels.specs.Kernel.{made};
ghost use Rattle.offer.specs.Offer.{offer};
ghost use Rattle.offer.specs.Calls as Calls;
ghost use Rattle.offer.specs.Calls.{offering, Offers};

use kernels::choice;
use kernels::choice::Choice;
use kernels::kernel::Stepped;
use state::State;
use vectors::refusal::Refusal;
use vectors::vector;

// What a session that is asked for a step lends of itself: its kernel, the most hidden trials in a row that it takes, its state, and
// whether refusal 2 finds nothing in it.
#[derive(Clone, Copy)]
pub struct Asked {
    pub choice: Choice,
    pub allowance: u64,
    pub sound: bool,
    pub state: State,
}

// That a step p was made: its passes, p·g, p·H·p and ‖p‖.
#[derive(Clone, Copy, Debug, PartialEq)]
pub struct Offered {
    pub passes: u64,
    pub slope: f64,
    pub curvature: f64,
    pub norm: f64,
}

// What a session keeps of a step, whose norm the kernel took.
fn measured(n: usize, gradient: &[f64], hessian: &[f64], made: Stepped, step: &[f64]) -> Offered
    requires { Square n (length hessian.now) × (length step.now ≡ n) × (made.norm ≡ Vector.norm step.now) }
    ensures { result ≡ Calls.measured n gradient.now hessian.now made.passes step.now }
{
    Offered {
        passes: made.passes,
        slope: vector::dot_any(step, gradient),
        curvature: vector::value(vector::weighted_dot(n, step, hessian, step)),
        norm: made.norm,
    }
}

// The step stands at the start of the scratch, in slot 0; the trial is laid beside it, since nothing may be written that is still refused.
fn lay_trial(n: usize, point: &[f64], w: &mut [f64])
    requires { (n + n ≤ length w.old) × (length point.now ≡ n) }
    ensures { Puts w.old n 1 (plus n (slot w.old n 0) point.now) w.new }
{
    for i in 0..n {
        w[n + i] = w[i] + point[i];
    }
}

// Step and trial, from a step that a kernel laid out.
fn hand_out(
    n: usize,
    laid: Stepped,
    point: &[f64],
    gradient: &[f64],
    hessian: &[f64],
    step: &mut [f64],
    trial: &mut [f64],
    scratch: &mut [f64],
) -> Result<Offered, Refusal>
    requires { (n + n ≤ length scratch.old) × Square n (length hessian.now) × (length point.now ≡ n) × (length step.old ≡ n) × (length trial.old ≡ n) × (laid.norm ≡ Vector.norm (slot scratch.old n 0)) }
    ensures { Offers n gradient.now hessian.now (offer n point.now (made laid.passes (slot scratch.old n 0)))
        result step.old trial.old scratch.old step.new trial.new scratch.new }
{
    lay_trial(n, point, scratch);
    if !vector::all_finite(&scratch[n..n + n]) {
        vector::clear(scratch);
        return Err(Refusal::Range);
    }
    lent::copy(&scratch[0..n], step);
    lent::copy(&scratch[n..n + n], trial);
    vector::clear(scratch);
    Ok(measured(n, gradient, hessian, laid, step))
}

// The kernel that is chosen is run, and its step and the trial are written, unless a refusal is due. A door for sessions
// that have looked, and public for one that is no `Session<S>`: refusal 2 is what the session says of itself, and beside it
// only the kernel's and the dogleg's number are asked.
pub fn make_unchecked(
    asked: Asked,
    n: usize,
    point: &[f64],
    gradient: &[f64],
    hessian: &[f64],
    step: &mut [f64],
    trial: &mut [f64],
    scratch: &mut [f64],
) -> Result<Offered, Refusal>
    ensures { Offers n gradient.now hessian.now
        (offering asked n point.now gradient.now hessian.now step.old trial.old scratch.old)
        result step.old trial.old scratch.old step.new trial.new scratch.new }
{
    range::proposal(asked, n, point, gradient, hessian, step, trial, scratch)?;
    let state = asked.state;
    if state.radius == 0.0 {
        return Err(Refusal::Radius);
    }
    if state.count == asked.allowance {
        return Err(Refusal::Hidden);
    }
    let laid = choice::lay_unchecked(asked.choice, n, state.radius, gradient, hessian, scratch)?;
    // behind the step the scratch is +0 already
    let used = &mut scratch[..n + n];
    hand_out(n, laid, point, gradient, hessian, step, trial, used)
}
