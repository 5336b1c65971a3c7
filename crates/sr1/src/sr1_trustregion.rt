// SR1TrustRegion (Nocedal and Wright, Numerical Optimization, section 6.2, algorithm 6.2): its calls by value, in the order of argmin's
// steps. Nothing is written before the last refusal is decided.
ghost use Rattle.std.specs.Prelude.{◌≡◌, true, ◌≤◌, length};
ghost use Rattle.vectors.specs.Vector.{zeros, all_finite};
ghost use Rattle.vectors.specs.Slots.{Puts};
ghost use Rattle.vectors.specs.Refusal.{judged, all_hold, Square};
ghost use Rattle.offer.specs.State as State;
ghost use Rattle.sr1.specs.Settings.{chosen};
ghost use Rattle.sr1.specs.Session as Definition;
ghost use Rattle.sr1.specs.Session.{proposal, residual, ported_rule, book_rule, updated_by, updated, next_radius, answer_entries, judgement_checks, judgement};
ghost use Rattle.sr1.specs.Calls.{begun, Proposes, Updates, Judges};

use crate::gain::Gain;
use crate::session;
use crate::session::{After, Session};
use crate::settings::Settings;
use offer::state::{Phase, Promise, Said};
use offer::{lent, range, state};
use vectors::refusal::Refusal;
use vectors::{refusal, vector};

// ---- start

#[tactic(auto, unfolding(crate::specs::Session::start))]
pub fn start(settings: Settings, cost: f64) -> Result<Session, Refusal>
    ensures { result ≡ begun (Definition.start settings cost) }
{
    Session::start(settings, cost)
}

// ---- propose

// Whether the gradient is below the tolerance.
#[tactic(auto, unfolding(crate::specs::Session::converged))]
fn converged(s: Session, gradient: &[f64]) -> bool
    ensures { result ≡ Definition.converged s gradient.now }
{
    vector::norm_any(gradient) < s.settings.tol_grad
}

// A step and the trial point, unless the session is done: of such a one refusals 1 to 4 are asked, and no others. The step is promised
// on its predicted fall and its norm, which are kept until its cost comes.
fn propose(
    s: &mut Session,
    n: usize,
    point: &[f64],
    gradient: &[f64],
    hessian: &[f64],
    step: &mut [f64],
    trial: &mut [f64],
    scratch: &mut [f64],
) -> Result<Said, Refusal>
    ensures { Proposes (proposal chosen s.old n point.now gradient.now hessian.now step.old trial.old scratch.old)
        s.old step.old trial.old scratch.old (record { session = s.new; outcome = result }) step.new trial.new scratch.new }
{
    if converged(*s, gradient) {
        range::proposal(s.asked(), n, point, gradient, hessian, step, trial, scratch)?;
        vector::clear(scratch);
        return Ok(Said::Done);
    }
    s.propose(n, point, gradient, hessian, step, trial, scratch)
}

pub fn proposed(
    mut s: Session,
    n: usize,
    point: &[f64],
    gradient: &[f64],
    hessian: &[f64],
    step: &mut [f64],
    trial: &mut [f64],
    scratch: &mut [f64],
) -> After
    ensures { Proposes (proposal chosen s n point.now gradient.now hessian.now step.old trial.old scratch.old)
        s step.old trial.old scratch.old result step.new trial.new scratch.new }
{
    let outcome = propose(&mut s, n, point, gradient, hessian, step, trial, scratch);
    After {
        session: s,
        outcome,
    }
}

// ---- the answer with a cost and a gradient

// What refusal 4 asks of an answer.
fn answered(
    cost: f64,
    new_gradient: &[f64],
    step: &[f64],
    trial: &[f64],
    gradient: &[f64],
    hessian: &[f64],
) -> bool
    ensures { result ≡ all_hold (answer_entries cost new_gradient.now step.now trial.now gradient.now hessian.now) }
{
    refusal::all_hold(&[
        vector::all_finite(step),
        vector::all_finite(trial),
        vector::all_finite(gradient),
        vector::all_finite(hessian),
        vector::all_finite(new_gradient),
        range::cost_taken(cost),
    ])
}

// The fall of the cost over the fall that was predicted.
fn fall_ratio(before: f64, cost: f64, predicted: f64) -> f64
    ensures { result ≡ Definition.fall_ratio before cost predicted }
{
    float::one_nan((before - cost) / predicted)
}

// A NaN ratio passes no test: it halves the radius.
#[tactic(auto, unfolding(crate::specs::Session::next_radius))]
fn next_radius(ratio: f64, norm: f64, radius: f64) -> f64
    ensures { result ≡ next_radius ratio norm radius }
{
    if 0.75 < ratio {
        if norm <= 0.8 * radius {
            return radius;
        }
        return 2.0 * radius;
    }
    if 0.1 <= ratio && ratio <= 0.75 {
        return radius;
    }
    0.5 * radius
}

// z = (G − g) − H·s, at the start of the scratch.
fn lay_residual(
    n: usize,
    new_gradient: &[f64],
    gradient: &[f64],
    hessian: &[f64],
    step: &[f64],
    w: &mut [f64],
)
    requires { (n ≤ length w.old) × Square n (length hessian.now) × (length new_gradient.now ≡ n) × (length gradient.now ≡ n) × (length step.now ≡ n) }
    ensures { Puts w.old n 0 (residual n new_gradient.now gradient.now hessian.now step.now) w.new }
{
    for i in 0..n {
        w[i] = new_gradient[i] - gradient[i] - vector::dot_any(vector::row(n, hessian, i), step);
    }
}

// Edition 1. argmin takes the norm of the number q, its magnitude, on both sides.
#[tactic(auto, unfolding(crate::specs::Session::ported_rule))]
fn ported_rule(factor: f64, norm: f64, q: f64) -> bool
    ensures { result ≡ ported_rule factor norm q }
{
    let size = float::magnitude(q);
    factor * norm * size <= size
}

// Edition 2. The book has the norm of z on one side; and by a q of zero nothing can be divided.
#[tactic(auto, unfolding(crate::specs::Session::book_rule))]
fn book_rule(factor: f64, norm: f64, z_norm: f64, q: f64) -> bool
    ensures { result ≡ book_rule factor norm z_norm q }
{
    let size = float::magnitude(q);
    factor * norm * z_norm <= size && q != 0.0
}

// Whether the Hessian is updated: the one place that asks for the edition.
#[tactic(auto, using(crate::proofs::Hessians::by_first, crate::proofs::Hessians::by_other))]
fn updates(settings: Settings, norm: f64, z: &[f64], q: f64) -> bool
    ensures { result ≡ Definition.updates settings norm z.now q }
{
    if settings.edition == 1 {
        return ported_rule(settings.factor, norm, q);
    }
    book_rule(settings.factor, norm, vector::norm_any(z), q)
}

// The Hessian is updated, unless an entry of it would not be finite. Every entry is tested before one is
// written: there is no room for a second matrix.
fn update(
    n: usize,
    settings: Settings,
    norm: f64,
    step: &[f64],
    z: &[f64],
    hessian: &mut [f64],
) -> Result<(), Refusal>
    requires { Square n (length hessian.old) × (length z.now ≡ n) × (all_finite hessian.old ≡ true) }
    ensures { Updates (updated_by n settings norm hessian.old step.now z.now) result hessian.old hessian.new }
{
    let q = vector::dot_any(step, z);
    if !updates(settings, norm, z, q) {
        return Ok(());
    }
    let gain = Gain {
        n,
        z,
        share: 1.0 / q,
    };
    Refusal::Range.unless(gain.rows_finite(hessian))?;
    gain.write_rows(hessian);
    Ok(())
}

// The same by way of the scratch, which is +0 afterwards.
fn renew(
    n: usize,
    settings: Settings,
    norm: f64,
    new_gradient: &[f64],
    step: &[f64],
    gradient: &[f64],
    hessian: &mut [f64],
    scratch: &mut [f64],
) -> Result<(), Refusal>
    requires { (n ≤ length scratch.old) × Square n (length hessian.old) × (length new_gradient.now ≡ n) × (length gradient.now ≡ n) × (length step.now ≡ n) × (all_finite hessian.old ≡ true) }
    ensures { Updates (updated n settings norm new_gradient.now gradient.now hessian.old step.now) result hessian.old hessian.new
        × (scratch.new ≡ zeros (length scratch.old)) }
{
    lay_residual(n, new_gradient, gradient, hessian, step, scratch);
    let done = update(n, settings, norm, step, &scratch[0..n], hessian);
    vector::clear(scratch);
    done
}

// The count after an answer that is taken: a hidden trial is one more, any other ends the row.
fn counted(cost: f64, count: u64) -> u64
    requires { count ≤ 1000 }
    ensures { result ≡ State.counted cost count }
{
    if float::is_nan(cost) {
        return count + 1;
    }
    0
}

// The verdict on a trial whose step was promised on a predicted fall and its norm.
fn judge(
    s: &mut Session,
    n: usize,
    promise: Promise,
    answer: f64,
    new_gradient: &[f64],
    point: &mut [f64],
    step: &[f64],
    trial: &[f64],
    gradient: &mut [f64],
    hessian: &mut [f64],
    scratch: &mut [f64],
) -> Result<Said, Refusal>
    requires { judged (judgement_checks s.old n new_gradient.now point.old step.now trial.now gradient.old hessian.old scratch.old) ≡ Ok tt }
    ensures { Judges (Definition.judge s.old n answer new_gradient.now point.old step.now trial.now gradient.old hessian.old promise)
        s.old point.old gradient.old hessian.old scratch.old (record { session = s.new; outcome = result }) point.new gradient.new hessian.new scratch.new }
{
    Refusal::Entry.unless(answered(answer, new_gradient, step, trial, gradient, hessian))?;
    let ratio = fall_ratio(s.state.cost, answer, promise.value);
    let next = next_radius(ratio, promise.norm, s.state.radius);
    if !float::finite(next) {
        vector::clear(scratch);
        return Err(Refusal::Range);
    }
    renew(
        n,
        s.settings,
        promise.norm,
        new_gradient,
        step,
        gradient,
        hessian,
        scratch,
    )?;
    let count = counted(answer, s.state.count);
    if s.settings.eta < ratio {
        lent::copy(trial, point);
        lent::copy(new_gradient, gradient);
        s.state = state::moved(s.state, next, answer, Phase::Ready, count);
        return Ok(Said::Accepted(ratio));
    }
    s.state = state::moved(s.state, next, s.state.cost, Phase::Ready, count);
    Ok(Said::Rejected(ratio))
}

// What an answer comes to, in the session of the call by value: one that is refused leaves it as it is.
fn verdict(
    s: &mut Session,
    n: usize,
    answer: f64,
    new_gradient: &[f64],
    point: &mut [f64],
    step: &[f64],
    trial: &[f64],
    gradient: &mut [f64],
    hessian: &mut [f64],
    scratch: &mut [f64],
) -> Result<Said, Refusal>
    ensures { Judges (judgement s.old n answer new_gradient.now point.old step.now trial.now gradient.old hessian.old scratch.old)
        s.old point.old gradient.old hessian.old scratch.old (record { session = s.new; outcome = result }) point.new gradient.new hessian.new scratch.new }
{
    let lengths = lent::all_sized(n, point, gradient, hessian, step, trial, scratch);
    let sized = refusal::all_hold(&[lengths, new_gradient.len() == n]);
    let sound = session::sound(*s);
    range::verdict(sized, sound, true, true)?;
    let promise = state::promised(s.state.phase)?;
    judge(
        s,
        n,
        promise,
        answer,
        new_gradient,
        point,
        step,
        trial,
        gradient,
        hessian,
        scratch,
    )
}

// The answer with a cost and a gradient.
pub fn judged(
    mut s: Session,
    n: usize,
    cost: f64,
    new_gradient: &[f64],
    point: &mut [f64],
    step: &[f64],
    trial: &[f64],
    gradient: &mut [f64],
    hessian: &mut [f64],
    scratch: &mut [f64],
) -> After
    ensures { Judges (judgement s n cost new_gradient.now point.old step.now trial.now gradient.old hessian.old scratch.old)
        s point.old gradient.old hessian.old scratch.old result point.new gradient.new hessian.new scratch.new }
{
    let outcome = verdict(
        &mut s,
        n,
        cost,
        new_gradient,
        point,
        step,
        trial,
        gradient,
        hessian,
        scratch,
    );
    After {
        session: s,
        outcome,
    }
}
