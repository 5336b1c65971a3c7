// TrustRegion (Nocedal and Wright, Numerical Optimization, section 4.1, algorithm 4.1): its calls by value, in the order of argmin's
// steps. Nothing is written before the last refusal is decided.
ghost use Rattle.std.specs.Prelude.{◌≡◌, ◌&&◌, ◌≤◌, length};
ghost use Rattle.vectors.specs.Vector.{all_finite};
ghost use Rattle.offer.specs.Offer.{cost_taken};
ghost use Rattle.offer.specs.State as State;
ghost use Rattle.trustregion.specs.Settings.{chosen};
ghost use Rattle.trustregion.specs.Session as Definition;
ghost use Rattle.trustregion.specs.Session.{proposal, judgement, renewal_sized, renewal, next_radius};
ghost use Rattle.trustregion.specs.Calls.{begun, Proposes, Judges, Renews};

use crate::session;
use crate::session::{After, Session};
use crate::settings::Settings;
use offer::state::{Phase, Promise, Said};
use offer::{lent, range, state};
use vectors::refusal::Refusal;
use vectors::{refusal, vector};

// 10·2^-52, which argmin writes as ten epsilons.
const TEN_EPSILONS: f64 = 2.220446049250313e-15;

// ---- start

#[tactic(auto, unfolding(crate::specs::Session::start))]
pub fn start(settings: Settings, cost: f64) -> Result<Session, Refusal>
    ensures { result ≡ begun (Definition.start settings cost) }
{
    Session::start(settings, cost)
}

// ---- propose

// A step and the trial point. The step is promised on its model value and its norm, which are kept until its cost comes.
pub fn proposed(
    mut s: Session,
    n: usize,
    point: &[f64],
    gradient: &[f64],
    hessian: &[f64],
    step: &mut [f64],
    trial: &mut [f64],
    scratch: &mut [f64],
) -> After
    ensures { Proposes (proposal chosen s n point.now gradient.now hessian.now step.old trial.old scratch.old)
        s step.old trial.old scratch.old result step.new trial.new scratch.new }
{
    let outcome = s.propose(n, point, gradient, hessian, step, trial, scratch);
    After {
        session: s,
        outcome,
    }
}

// ---- the answer with a cost

// What refusal 4 asks of an answer.
fn answered(cost: f64, trial: &[f64]) -> bool
    ensures { result ≡ (all_finite trial.now && cost_taken cost) }
{
    vector::all_finite(trial) && range::cost_taken(cost)
}

// A NaN ratio is not below 0.25, nor above 0.75: it keeps the radius.
#[tactic(auto, unfolding(crate::specs::Session::next_radius))]
fn next_radius(ratio: f64, norm: f64, radius: f64, max_radius: f64) -> f64
    ensures { result ≡ next_radius ratio norm radius max_radius }
{
    if ratio < 0.25 {
        return 0.25 * norm;
    }
    if 0.75 < ratio && float::magnitude(norm - radius) <= TEN_EPSILONS {
        return float::smaller(max_radius, 2.0 * radius);
    }
    radius
}

// The count after an answer that is taken: a hidden trial is one more, any other ends the row.
fn counted(cost: f64, count: u64) -> u64
    requires { count ≤ 1000 }
    ensures { result ≡ State.counted cost count }
{
    if float::is_nan(cost) {
        return count + 1;
    }
    0
}

// The verdict on a trial whose step was promised on a model value and its norm.
fn judge(
    s: &mut Session,
    promise: Promise,
    answer: f64,
    point: &mut [f64],
    trial: &[f64],
) -> Result<Said, Refusal>
    requires { (length point.old ≡ length trial.now) × (s.old.state.count ≤ 1000) }
    ensures { Judges (Definition.judge s.old answer point.old trial.now promise) s.old point.old (record { session = s.new; outcome = result }) point.new }
{
    Refusal::Entry.unless(answered(answer, trial))?;
    let ratio = kernels::reduction_ratio(s.state.cost, answer, s.state.cost, promise.value);
    let next = next_radius(ratio, promise.norm, s.state.radius, s.settings.max_radius);
    Refusal::Range.unless(float::finite(next))?;
    let count = counted(answer, s.state.count);
    if s.settings.eta < ratio {
        lent::copy(trial, point);
        s.state = state::moved(s.state, next, answer, Phase::AwaitingDerivatives, count);
        return Ok(Said::Accepted(ratio));
    }
    s.state = state::moved(s.state, next, s.state.cost, Phase::Ready, count);
    Ok(Said::Rejected(ratio))
}

// What an answer comes to, in the session of the call by value: one that is refused leaves it as it is.
fn verdict(
    s: &mut Session,
    n: usize,
    cost: f64,
    point: &mut [f64],
    trial: &[f64],
) -> Result<Said, Refusal>
    ensures { Judges (judgement s.old n cost point.old trial.now)
        s.old point.old (record { session = s.new; outcome = result }) point.new }
{
    let sized = refusal::vectors(n, point.len(), trial.len());
    let sound = session::sound(*s);
    range::verdict(sized, sound, true, true)?;
    let promise = state::promised(s.state.phase)?;
    judge(s, promise, cost, point, trial)
}

// The answer with a cost.
pub fn judged(mut s: Session, n: usize, cost: f64, point: &mut [f64], trial: &[f64]) -> After
    ensures { Judges (judgement s n cost point.old trial.now) s point.old result point.new }
{
    let outcome = verdict(&mut s, n, cost, point, trial);
    After {
        session: s,
        outcome,
    }
}

// ---- the answer with new derivatives

fn renewal_sized(
    n: usize,
    new_gradient: &[f64],
    new_hessian: &[f64],
    gradient: &[f64],
    hessian: &[f64],
) -> bool
    ensures { result ≡ renewal_sized n new_gradient.now new_hessian.now gradient.now hessian.now }
{
    refusal::size(n)
        && refusal::all_hold(&[
            new_gradient.len() == n,
            new_hessian.len() == n * n,
            gradient.len() == n,
            hessian.len() == n * n,
        ])
}

// The same of new derivatives.
fn renew(
    s: &mut Session,
    n: usize,
    new_gradient: &[f64],
    new_hessian: &[f64],
    gradient: &mut [f64],
    hessian: &mut [f64],
) -> Result<Said, Refusal>
    ensures { Renews (renewal s.old n new_gradient.now new_hessian.now gradient.old hessian.old)
        s.old gradient.old hessian.old (record { session = s.new; outcome = result }) gradient.new hessian.new }
{
    let sized = renewal_sized(n, new_gradient, new_hessian, gradient, hessian);
    let in_turn = state::awaits_derivatives(s.state.phase);
    let finite = vector::both_finite(new_gradient, new_hessian);
    let sound = session::sound(*s);
    range::verdict(sized, sound, in_turn, finite)?;
    lent::copy(new_gradient, gradient);
    lent::copy(new_hessian, hessian);
    s.state = state::moved(s.state, s.state.radius, s.state.cost, Phase::Ready, 0);
    Ok(Said::Taken)
}

// The answer with new derivatives.
pub fn renewed(
    mut s: Session,
    n: usize,
    new_gradient: &[f64],
    new_hessian: &[f64],
    gradient: &mut [f64],
    hessian: &mut [f64],
) -> After
    ensures { Renews (renewal s n new_gradient.now new_hessian.now gradient.old hessian.old)
        s gradient.old hessian.old result gradient.new hessian.new }
{
    let outcome = renew(&mut s, n, new_gradient, new_hessian, gradient, hessian);
    After {
        session: s,
        outcome,
    }
}
