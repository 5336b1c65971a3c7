// A TrustRegion session in lists. Its own settings: radius, max_radius, eta.
ghost use Rattle.std.specs.Prelude.{◌≡◌};
ghost use Rattle.trustregion.specs.Settings.{chosen};
ghost use Rattle.trustregion.specs.Session.{proposal, judgement, renewal};
ghost use Rattle.trustregion.specs.Calls.{Proposes, Judges, Renews};
ghost use Rattle.foreign_sessions.specs.Lists.{told};
ghost use Rattle.codec.specs.Codec.{trust_region_of};
ghost use Rattle.foreign_sessions.specs.TrustRegion.{starts, Driven};

use crate::listed::Listed;
use codec::Wholes;
use trustregion::settings::Settings;
use trustregion::trustregion_method;

impl Listed<3> for Settings {
    ghost settings_of = { trust_region_of };

    ghost LAST_PHASE = { 2 };

    const LAST_PHASE: u64 = 2;

    fn settings_of(whole: Wholes, epsilon: f64, own: &[f64; 3]) -> Self {
        whole.trust_region(epsilon, own)
    }
}

// ---- the calls

// Settings and cost are read; what else the lists held is not looked at.
#[tactic(auto, unfolding(trustregion::specs::Session::start))]
#[unsafe(no_mangle)]
pub extern "C" fn mboyaxin_trustregion_start(
    words: &mut [u64; 10],
    numbers: &mut [f64; 6],
    settings: &[f64; 3],
) -> u64
    ensures { told result words.new numbers.new ≡ starts words.old numbers.old settings.now }
{
    crate::start::<Settings, 3>(words, numbers, settings)
}

#[tactic(auto, using(crate::proofs::Lists::drives))]
#[unsafe(no_mangle)]
pub extern "C" fn mboyaxin_trustregion_propose(
    words: &mut [u64; 10],
    numbers: &mut [f64; 6],
    settings: &[f64; 3],
    n: usize,
    point: &[f64],
    gradient: &[f64],
    hessian: &[f64],
    step: &mut [f64],
    trial: &mut [f64],
    scratch: &mut [f64],
) -> u64
    ensures { Driven words.old numbers.old settings.now (λ s after. Proposes (proposal chosen s n point.now gradient.now hessian.now step.old trial.old scratch.old)
        s step.old trial.old scratch.old after step.new trial.new scratch.new)
        (told result words.new numbers.new) }
{
    let s = crate::session_in(words, numbers, settings);
    let after = trustregion_method::proposed(s, n, point, gradient, hessian, step, trial, scratch);
    crate::keep(after, words, numbers)
}

#[tactic(auto, using(crate::proofs::Lists::drives))]
#[unsafe(no_mangle)]
pub extern "C" fn mboyaxin_trustregion_answer_cost(
    words: &mut [u64; 10],
    numbers: &mut [f64; 6],
    settings: &[f64; 3],
    n: usize,
    cost: f64,
    point: &mut [f64],
    trial: &[f64],
) -> u64
    ensures { Driven words.old numbers.old settings.now (λ s after. Judges (judgement s n cost point.old trial.now) s point.old after point.new)
        (told result words.new numbers.new) }
{
    let s = crate::session_in(words, numbers, settings);
    let after = trustregion_method::judged(s, n, cost, point, trial);
    crate::keep(after, words, numbers)
}

#[tactic(auto, using(crate::proofs::Lists::drives))]
#[unsafe(no_mangle)]
pub extern "C" fn mboyaxin_trustregion_answer_derivatives(
    words: &mut [u64; 10],
    numbers: &mut [f64; 6],
    settings: &[f64; 3],
    n: usize,
    new_gradient: &[f64],
    new_hessian: &[f64],
    gradient: &mut [f64],
    hessian: &mut [f64],
) -> u64
    ensures { Driven words.old numbers.old settings.now (λ s after. Renews (renewal s n new_gradient.now new_hessian.now gradient.old hessian.old)
        s gradient.old hessian.old after gradient.new hessian.new)
        (told result words.new numbers.new) }
{
    let s = crate::session_in(words, numbers, settings);
    let after = trustregion_method::renewed(s, n, new_gradient, new_hessian, gradient, hessian);
    crate::keep(after, words, numbers)
}
