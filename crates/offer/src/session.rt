// A session of any kind: the state that argmin keeps in options and closures, as values. The kind is the type of its settings.
ghost use Rattle.std.specs.Prelude.{◌≡◌};
ghost use Rattle.offer.specs.State.{result_of};
ghost use Rattle.offer.specs.Session as Definition;
ghost use Rattle.offer.specs.Session.{Lawful, chosen, proposal};
ghost use Rattle.offer.specs.Calls.{Proposes};

use crate::state::{Phase, Said, State};
use crate::{Asked, range, state};
use kernels::choice::Choice;
use vectors::refusal;
use vectors::refusal::Refusal;

// What a session asks of its settings.
pub trait Kind: Copy {
    ghost kind: { Definition.Kind Self };

    // What refusal 2 asks of them.
    fn in_range(self) -> bool
        ensures { result ≡ kind.in_range self };

    fn choice(self) -> Choice
        ensures { result ≡ kind.choice self };

    // The most hidden trials in a row.
    fn allowance(self) -> u64
        ensures { result ≡ kind.allowance self };

    // The radius that a session begins with.
    fn first_radius(self) -> f64
        ensures { result ≡ kind.first_radius self };

    // What a step is promised on beside its norm, from the cost at the point, p·g and p·H·p.
    fn promise(cost: f64, slope: f64, curvature: f64) -> f64
        ensures { result ≡ kind.promise cost slope curvature };

    ghost laws: { Lawful kind };
}

#[derive(Clone, Copy, Debug, PartialEq)]
pub struct Session<S> {
    pub settings: S,
    pub state: State,
}

// What a call by value returns.
#[derive(Clone, Copy, Debug, PartialEq)]
pub struct After<S> {
    pub session: Session<S>,
    pub outcome: Result<Said, Refusal>,
}

impl<S: Kind> Session<S> {
    // A refusal is its number only.
    pub fn start(settings: S, cost: f64) -> Result<Self, Refusal>
        ensures { result ≡ result_of (Definition.start S.kind settings cost) }
    {
        range::verdict(true, settings.in_range(), true, float::finite(cost))?;
        let state = state::begin(settings.first_radius(), cost);
        Ok(Session { settings, state })
    }

    // What refusal 2 asks of a session at every call.
    pub fn is_sound(self) -> bool
        ensures { result ≡ Definition.sound S.kind self }
    {
        refusal::all_hold(&[
            self.settings.in_range(),
            state::steady(self.state),
            self.state.count <= self.settings.allowance(),
        ])
    }

    // What it lends of itself to be asked for a step.
    pub fn asked(self) -> Asked
        ensures { result ≡ Definition.asking S.kind self }
    {
        Asked {
            choice: self.settings.choice(),
            allowance: self.settings.allowance(),
            sound: self.is_sound(),
            state: self.state,
        }
    }

    // A step and the trial point. What the step is promised on is kept until its cost comes.
    pub fn propose(
        &mut self,
        n: usize,
        point: &[f64],
        gradient: &[f64],
        hessian: &[f64],
        step: &mut [f64],
        trial: &mut [f64],
        scratch: &mut [f64],
    ) -> Result<Said, Refusal>
        ensures { Proposes (proposal S.kind (chosen S.kind) self.old n point.now gradient.now hessian.now step.old trial.old scratch.old)
            self.old step.old trial.old scratch.old (record { session = self.new; outcome = result }) step.new trial.new scratch.new }
    {
        let offered = crate::make_unchecked(
            self.asked(),
            n,
            point,
            gradient,
            hessian,
            step,
            trial,
            scratch,
        )?;
        let value = S::promise(self.state.cost, offered.slope, offered.curvature);
        self.state = state::in_phase(self.state, Phase::AwaitingCost(value, offered.norm));
        Ok(Said::Proposed(offered.passes))
    }
}
