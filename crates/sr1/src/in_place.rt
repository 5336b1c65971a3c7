// The same calls on a session that is lent, to be changed in place: each keeps what the call by value returns.
ghost use Rattle.sr1.specs.Settings.{chosen};
ghost use Rattle.sr1.specs.Session.{proposal, judgement};
ghost use Rattle.sr1.specs.Calls.{Proposes, Judges};

use crate::session::Session;
use crate::sr1_trustregion;
use offer::state::Said;
use vectors::refusal::Refusal;

pub fn propose(
    s: &mut Session,
    n: usize,
    point: &[f64],
    gradient: &[f64],
    hessian: &[f64],
    step: &mut [f64],
    trial: &mut [f64],
    scratch: &mut [f64],
) -> Result<Said, Refusal>
    ensures { Proposes (proposal chosen s.old n point.now gradient.now hessian.now step.old trial.old scratch.old)
        s.old step.old trial.old scratch.old (record { session = s.new; outcome = result }) step.new trial.new scratch.new }
{
    let after = sr1_trustregion::proposed(*s, n, point, gradient, hessian, step, trial, scratch);
    *s = after.session;
    after.outcome
}

pub fn answer(
    s: &mut Session,
    n: usize,
    cost: f64,
    new_gradient: &[f64],
    point: &mut [f64],
    step: &[f64],
    trial: &[f64],
    gradient: &mut [f64],
    hessian: &mut [f64],
    scratch: &mut [f64],
) -> Result<Said, Refusal>
    ensures { Judges (judgement s.old n cost new_gradient.now point.old step.now trial.now gradient.old hessian.old scratch.old)
        s.old point.old gradient.old hessian.old scratch.old (record { session = s.new; outcome = result }) point.new gradient.new hessian.new scratch.new }
{
    let after = sr1_trustregion::judged(
        *s,
        n,
        cost,
        new_gradient,
        point,
        step,
        trial,
        gradient,
        hessian,
        scratch,
    );
    *s = after.session;
    after.outcome
}
