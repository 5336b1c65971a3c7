// What argmin's SR1TrustRegion is made with.
ghost use Rattle.std.specs.Prelude.{◌≡◌};
ghost use Rattle.sr1.specs.Settings.{by_default, settings_of, allowing, updating, in_range};
ghost use Rattle.sr1.specs.Session as Definition;
ghost use Rattle.sr1.specs.Laws.{lawful};

use kernels::choice::Choice;
use kernels::{choice, kernel};
use offer::session::Kind;
use offer::state;
use vectors::refusal;

#[derive(Clone, Copy)]
pub struct Settings {
    pub choice: Choice,
    pub radius: f64,
    pub eta: f64,
    pub factor: f64,
    pub tol_grad: f64,
    pub allowance: u64,
    pub edition: u64,
}

impl Settings {
    pub const RADIUS: f64 = 1.0;

    pub const ETA: f64 = 0.5e-3;

    pub const FACTOR: f64 = 1e-8;

    pub const TOL_GRAD: f64 = 1e-3;

    pub const ALLOWANCE: u64 = 1000;

    // Of the rule that says when the Hessian is updated: 1 is argmin's, 2 the book's.
    pub const EDITION: u64 = 1;

    // The defaults for all but the kernel and Steihaug's iteration limit, which have none.
    pub fn new(kernel: u64, limit: u64) -> Self
        ensures { result ≡ by_default kernel limit }
    {
        let choice = Choice::new(kernel, limit);
        Self::of(
            choice,
            Self::RADIUS,
            Self::ETA,
            Self::FACTOR,
            Self::TOL_GRAD,
        )
    }

    // Of what is told. Whatever else the settings may come to hold gets its default here, and no caller need know it.
    pub fn of(choice: Choice, radius: f64, eta: f64, factor: f64, tol_grad: f64) -> Self
        ensures { result ≡ settings_of choice radius eta factor tol_grad }
    {
        Self {
            choice,
            radius,
            eta,
            factor,
            tol_grad,
            allowance: Self::ALLOWANCE,
            edition: Self::EDITION,
        }
    }

    // At most so many hidden trials in a row. (Why TrustRegion's settings have their own: there.)
    pub fn with_allowance(self, allowance: u64) -> Self
        ensures { result ≡ allowing allowance self }
    {
        Self { allowance, ..self }
    }

    // By this edition of the rule.
    pub fn with_edition(self, edition: u64) -> Self
        ensures { result ≡ updating edition self }
    {
        Self { edition, ..self }
    }
}

// Every setting is checked, whatever the kernel. The radius is taken by magnitude.
#[tactic(auto, unfolding(crate::specs::Settings::in_range))]
pub fn in_range(t: Settings) -> bool
    ensures { result ≡ in_range t }
{
    refusal::all_hold(&[
        choice::in_range(t.choice),
        kernel::positive(float::magnitude(t.radius)),
        kernel::positive(t.eta),
        t.eta < 0.01,
        kernel::positive(t.factor),
        t.factor < 1.0,
        float::finite(t.tol_grad),
        0.0 <= t.tol_grad,
        state::allowable(t.allowance),
        1 <= t.edition,
        t.edition <= 2,
    ])
}

// The fall that the model promises: (−(g·s)) − 0.5·(s·H·s).
fn predicted_fall(slope: f64, curvature: f64) -> f64
    ensures { result ≡ Definition.predicted_fall slope curvature }
{
    float::one_nan(-slope - 0.5 * curvature)
}

impl Kind for Settings {
    ghost kind = { Definition.kind };

    ghost laws = { lawful };

    fn in_range(self) -> bool {
        in_range(self)
    }

    fn choice(self) -> Choice {
        self.choice
    }

    fn allowance(self) -> u64 {
        self.allowance
    }

    fn first_radius(self) -> f64 {
        float::magnitude(self.radius)
    }

    // A step is promised on its predicted fall, whatever the cost.
    fn promise(_cost: f64, slope: f64, curvature: f64) -> f64 {
        predicted_fall(slope, curvature)
    }
}
