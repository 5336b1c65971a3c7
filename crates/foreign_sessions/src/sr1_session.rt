// An SR1TrustRegion session in lists. Its own settings: radius, eta, factor, tol_grad. It awaits no derivatives.
ghost use Rattle.std.specs.Prelude.{◌≡◌};
ghost use Rattle.sr1.specs.Settings.{chosen};
ghost use Rattle.sr1.specs.Session.{proposal, judgement};
ghost use Rattle.sr1.specs.Calls.{Proposes, Judges};
ghost use Rattle.foreign_sessions.specs.Lists.{told};
ghost use Rattle.codec.specs.Codec.{sr1_of};
ghost use Rattle.foreign_sessions.specs.Sr1.{starts, Driven};

use crate::listed::Listed;
use codec::Wholes;
use sr1::settings::Settings;
use sr1::sr1_trustregion;

impl Listed<4> for Settings {
    ghost settings_of = { sr1_of };

    ghost LAST_PHASE = { 1 };

    const LAST_PHASE: u64 = 1;

    fn settings_of(whole: Wholes, epsilon: f64, own: &[f64; 4]) -> Self {
        whole.sr1(epsilon, own)
    }
}

// ---- the calls

// Settings and cost are read; what else the lists held is not looked at.
#[tactic(auto, unfolding(sr1::specs::Session::start))]
#[unsafe(no_mangle)]
pub extern "C" fn mboyaxin_sr1_start(
    words: &mut [u64; 10],
    numbers: &mut [f64; 6],
    settings: &[f64; 4],
) -> u64
    ensures { told result words.new numbers.new ≡ starts words.old numbers.old settings.now }
{
    crate::start::<Settings, 4>(words, numbers, settings)
}

#[tactic(auto, using(crate::proofs::Lists::drives))]
#[unsafe(no_mangle)]
pub extern "C" fn mboyaxin_sr1_propose(
    words: &mut [u64; 10],
    numbers: &mut [f64; 6],
    settings: &[f64; 4],
    n: usize,
    point: &[f64],
    gradient: &[f64],
    hessian: &[f64],
    step: &mut [f64],
    trial: &mut [f64],
    scratch: &mut [f64],
) -> u64
    ensures { Driven words.old numbers.old settings.now (λ s after. Proposes (proposal chosen s n point.now gradient.now hessian.now step.old trial.old scratch.old)
        s step.old trial.old scratch.old after step.new trial.new scratch.new)
        (told result words.new numbers.new) }
{
    let s = crate::session_in(words, numbers, settings);
    let after = sr1_trustregion::proposed(s, n, point, gradient, hessian, step, trial, scratch);
    crate::keep(after, words, numbers)
}

#[tactic(auto, using(crate::proofs::Lists::drives))]
#[unsafe(no_mangle)]
pub extern "C" fn mboyaxin_sr1_answer(
    words: &mut [u64; 10],
    numbers: &mut [f64; 6],
    settings: &[f64; 4],
    n: usize,
    cost: f64,
    new_gradient: &[f64],
    point: &mut [f64],
    step: &[f64],
    trial: &[f64],
    gradient: &mut [f64],
    hessian: &mut [f64],
    scratch: &mut [f64],
) -> u64
    ensures { Driven words.old numbers.old settings.now (λ s after. Judges (judgement s n cost new_gradient.now point.old step.now trial.now gradient.old hessian.old scratch.old)
        s point.old gradient.old hessian.old scratch.old after point.new gradient.new hessian.new scratch.new)
        (told result words.new numbers.new) }
{
    let s = crate::session_in(words, numbers, settings);
    let after = sr1_trustregion::judged(
        s,
        n,
        cost,
        new_gradient,
        point,
        step,
        trial,
        gradient,
        hessian,
        scratch,
    );
    crate::keep(after, words, numbers)
}
