// The same calls on a session that is lent, to be changed in place: each keeps what the call by value returns.
ghost use Rattle.trustregion.specs.Settings.{chosen};
ghost use Rattle.trustregion.specs.Session.{proposal, judgement, renewal};
ghost use Rattle.trustregion.specs.Calls.{Proposes, Judges, Renews};

use crate::session::Session;
use crate::trustregion_method;
use offer::state::Said;
use vectors::refusal::Refusal;

pub fn propose(
    s: &mut Session,
    n: usize,
    point: &[f64],
    gradient: &[f64],
    hessian: &[f64],
    step: &mut [f64],
    trial: &mut [f64],
    scratch: &mut [f64],
) -> Result<Said, Refusal>
    ensures { Proposes (proposal chosen s.old n point.now gradient.now hessian.now step.old trial.old scratch.old)
        s.old step.old trial.old scratch.old (record { session = s.new; outcome = result }) step.new trial.new scratch.new }
{
    let after = trustregion_method::proposed(*s, n, point, gradient, hessian, step, trial, scratch);
    *s = after.session;
    after.outcome
}

pub fn answer_cost(
    s: &mut Session,
    n: usize,
    cost: f64,
    point: &mut [f64],
    trial: &[f64],
) -> Result<Said, Refusal>
    ensures { Judges (judgement s.old n cost point.old trial.now)
        s.old point.old (record { session = s.new; outcome = result }) point.new }
{
    let after = trustregion_method::judged(*s, n, cost, point, trial);
    *s = after.session;
    after.outcome
}

pub fn answer_derivatives(
    s: &mut Session,
    n: usize,
    new_gradient: &[f64],
    new_hessian: &[f64],
    gradient: &mut [f64],
    hessian: &mut [f64],
) -> Result<Said, Refusal>
    ensures { Renews (renewal s.old n new_gradient.now new_hessian.now gradient.old hessian.old)
        s.old gradient.old hessian.old (record { session = s.new; outcome = result }) gradient.new hessian.new }
{
    let after = trustregion_method::renewed(*s, n, new_gradient, new_hessian, gradient, hessian);
    *s = after.session;
    after.outcome
}
