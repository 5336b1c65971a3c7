// What argmin's TrustRegion is made with.
ghost use Rattle.std.specs.Prelude.{◌≡◌};
ghost use Rattle.trustregion.specs.Settings.{by_default, settings_of, allowing, in_range};
ghost use Rattle.trustregion.specs.Session as Definition;
ghost use Rattle.trustregion.specs.Laws.{lawful};

use kernels::choice::Choice;
use kernels::{choice, kernel};
use offer::session::Kind;
use offer::state;
use vectors::refusal;

#[derive(Clone, Copy)]
pub struct Settings {
    pub choice: Choice,
    pub radius: f64,
    pub max_radius: f64,
    pub eta: f64,
    pub allowance: u64,
}

impl Settings {
    pub const RADIUS: f64 = 1.0;

    pub const MAX_RADIUS: f64 = 100.0;

    pub const ETA: f64 = 0.125;

    pub const ALLOWANCE: u64 = 1000;

    // The defaults for all but the kernel and Steihaug's iteration limit, which have none.
    pub fn new(kernel: u64, limit: u64) -> Self
        ensures { result ≡ by_default kernel limit }
    {
        let choice = Choice::new(kernel, limit);
        Self::of(choice, Self::RADIUS, Self::MAX_RADIUS, Self::ETA)
    }

    // Of what is told. Whatever else the settings may come to hold gets its default here, and no caller need know it.
    pub fn of(choice: Choice, radius: f64, max_radius: f64, eta: f64) -> Self
        ensures { result ≡ settings_of choice radius max_radius eta }
    {
        Self {
            choice,
            radius,
            max_radius,
            eta,
            allowance: Self::ALLOWANCE,
        }
    }

    // At most so many hidden trials in a row. SR1's settings have a function as this of their own: one for both, in the trait `Kind`,
    // would ask each for a setter besides.
    pub fn with_allowance(self, allowance: u64) -> Self
        ensures { result ≡ allowing allowance self }
    {
        Self { allowance, ..self }
    }
}

// Every setting is checked, whatever the kernel.
#[tactic(auto, unfolding(crate::specs::Settings::in_range))]
pub fn in_range(t: Settings) -> bool
    ensures { result ≡ in_range t }
{
    refusal::all_hold(&[
        choice::in_range(t.choice),
        kernel::positive(t.radius),
        kernel::positive(t.max_radius),
        float::finite(t.eta),
        0.0 <= t.eta,
        t.eta < 0.25,
        state::allowable(t.allowance),
    ])
}

// The model at the trial: (f + p·g) + 0.5·(p·H·p).
fn model_value(cost: f64, slope: f64, curvature: f64) -> f64
    ensures { result ≡ Definition.model_value cost slope curvature }
{
    float::one_nan(cost + slope + 0.5 * curvature)
}

impl Kind for Settings {
    ghost kind = { Definition.kind };

    ghost laws = { lawful };

    fn in_range(self) -> bool {
        in_range(self)
    }

    fn choice(self) -> Choice {
        self.choice
    }

    fn allowance(self) -> u64 {
        self.allowance
    }

    fn first_radius(self) -> f64 {
        self.radius
    }

    // A step is promised on its model value.
    fn promise(cost: f64, slope: f64, curvature: f64) -> f64 {
        model_value(cost, slope, curvature)
    }
}
