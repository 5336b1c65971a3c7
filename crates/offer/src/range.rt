// What both sessions check: a trial's cost, and refusals 1 to 4.
ghost use Rattle.std.specs.Prelude.{◌≡◌};
ghost use Rattle.vectors.specs.Refusal.{judged};
ghost use Rattle.offer.specs.Offer as Offer;
ghost use Rattle.offer.specs.Offer.{proposal_checks};
ghost use Rattle.offer.specs.Calls as Calls;

use crate::{Asked, lent, state};
use vectors::refusal::Refusal;

// A hidden marker's cost is a NaN: that is an answer, an infinity is none.
#[tactic(auto, unfolding(crate::specs::Offer::cost_taken))]
pub fn cost_taken(cost: f64) -> bool
    ensures { result ≡ Offer.cost_taken cost }
{
    float::finite(cost) || float::is_nan(cost)
}

// Refusals 1 to 4 in the order of document 01's table. A call that lacks a check passes it.
pub fn verdict(sized: bool, sound: bool, in_turn: bool, finite: bool) -> Result<(), Refusal>
    ensures { result ≡ judged (Calls.early_checks sized sound in_turn finite) }
{
    Refusal::Size.unless(sized)?;
    Refusal::Setting.unless(sound)?;
    Refusal::Turn.unless(in_turn)?;
    Refusal::Entry.unless(finite)
}

// Those of a proposal.
pub fn proposal(
    asked: Asked,
    n: usize,
    point: &[f64],
    gradient: &[f64],
    hessian: &[f64],
    step: &[f64],
    trial: &[f64],
    scratch: &[f64],
) -> Result<(), Refusal>
    ensures { result ≡ judged (proposal_checks asked.sound asked.state n point.now gradient.now hessian.now step.now trial.now scratch.now) }
{
    let sized = lent::all_sized(n, point, gradient, hessian, step, trial, scratch);
    let ready = state::is_ready(asked.state.phase);
    let finite = lent::inputs_finite(point, gradient, hessian);
    verdict(sized, asked.sound, ready, finite)
}
