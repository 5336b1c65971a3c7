// A TrustRegion session in lists.
ghost use Rattle.std.specs.Prelude.{◌≡◌};
ghost use Rattle.trustregion.specs.Settings.{chosen};
ghost use Rattle.trustregion.specs.Session.{proposal, judgement, renewal};
ghost use Rattle.trustregion.specs.Calls.{Proposes, Judges, Renews};
ghost use Rattle.foreign_sessions.specs.Lists.{told};
ghost use Rattle.foreign_sessions.specs.TrustRegion.{starts, Driven};

#[unsafe(no_mangle)]
pub extern "C" fn mboyaxin_trustregion_start(
    words: &mut [u64; 10],
    numbers: &mut [f64; 6],
    settings: &[f64; 3],
) -> u64
    ensures { told result words.new numbers.new ≡ starts words.old numbers.old settings.now }
{
    foreign_sessions::trust_region::mboyaxin_trustregion_start(words, numbers, settings)
}

#[unsafe(no_mangle)]
pub extern "C" fn mboyaxin_trustregion_propose(
    words: &mut [u64; 10],
    numbers: &mut [f64; 6],
    settings: &[f64; 3],
    n: usize,
    point: &[f64],
    gradient: &[f64],
    hessian: &[f64],
    step: &mut [f64],
    trial: &mut [f64],
    scratch: &mut [f64],
) -> u64
    ensures { Driven words.old numbers.old settings.now (λ s after. Proposes (proposal chosen s n point.now gradient.now hessian.now step.old trial.old scratch.old)
        s step.old trial.old scratch.old after step.new trial.new scratch.new)
        (told result words.new numbers.new) }
{
    foreign_sessions::trust_region::mboyaxin_trustregion_propose(
        words, numbers, settings, n, point, gradient, hessian, step, trial, scratch,
    )
}

#[unsafe(no_mangle)]
pub extern "C" fn mboyaxin_trustregion_answer_cost(
    words: &mut [u64; 10],
    numbers: &mut [f64; 6],
    settings: &[f64; 3],
    n: usize,
    cost: f64,
    point: &mut [f64],
    trial: &[f64],
) -> u64
    ensures { Driven words.old numbers.old settings.now (λ s after. Judges (judgement s n cost point.old trial.now) s point.old after point.new)
        (told result words.new numbers.new) }
{
    foreign_sessions::trust_region::mboyaxin_trustregion_answer_cost(
        words, numbers, settings, n, cost, point, trial,
    )
}

#[unsafe(no_mangle)]
pub extern "C" fn mboyaxin_trustregion_answer_derivatives(
    words: &mut [u64; 10],
    numbers: &mut [f64; 6],
    settings: &[f64; 3],
    n: usize,
    new_gradient: &[f64],
    new_hessian: &[f64],
    gradient: &mut [f64],
    hessian: &mut [f64],
) -> u64
    ensures { Driven words.old numbers.old settings.now (λ s after. Renews (renewal s n new_gradient.now new_hessian.now gradient.old hessian.old)
        s gradient.old hessian.old after gradient.new hessian.new)
        (told result words.new numbers.new) }
{
    foreign_sessions::trust_region::mboyaxin_trustregion_answer_derivatives(
        words,
        numbers,
        settings,
        n,
        new_gradient,
        new_hessian,
        gradient,
        hessian,
    )
}
