// Which word is which setting, and which number which phase, said once: for the scripts, and for the sessions that C drives. Whole numbers
// stand as they are; numbers in the order of document 01, epsilon by itself, since both kinds have it. Nothing is checked here: a start and
// each call do that.
#![tactic(auto)]

ghost use Rattle.std.specs.Prelude.{◌≡◌};
ghost use Rattle.codec.specs.Codec as Codec;
ghost use Rattle.codec.specs.Codec.{trust_region_of, sr1_of};

use kernels::choice::Choice;
use offer::state::Phase;

// The settings that are whole numbers. TrustRegion passes over the edition.
#[derive(Clone, Copy)]
pub struct Wholes {
    pub kernel: u64,
    pub limit: u64,
    pub allowance: u64,
    pub dogleg: u64,
    pub edition: u64,
}

impl Wholes {
    // The further settings by their defaults, of a kernel and a limit, which have none.
    pub fn by_default(kernel: u64, limit: u64) -> Self
        ensures { result ≡ Codec.by_default kernel limit }
    {
        Self {
            kernel,
            limit,
            allowance: sr1::settings::Settings::ALLOWANCE,
            dogleg: Choice::DOGLEG,
            edition: sr1::settings::Settings::EDITION,
        }
    }

    fn choice(self, epsilon: f64) -> Choice
        ensures { result ≡ Codec.choice self epsilon }
    {
        Choice::of(self.kernel, epsilon, self.limit).with_dogleg(self.dogleg)
    }

    // The numbers are radius, max_radius and eta.
    pub fn trust_region(self, epsilon: f64, numbers: &[f64; 3]) -> trustregion::settings::Settings
        ensures { result ≡ trust_region_of self epsilon numbers.now }
    {
        let [radius, max_radius, eta] = *numbers;
        let chosen = self.choice(epsilon);
        let told = trustregion::settings::Settings::of(chosen, radius, max_radius, eta);
        told.with_allowance(self.allowance)
    }

    // The numbers are radius, eta, factor and tol_grad.
    pub fn sr1(self, epsilon: f64, numbers: &[f64; 4]) -> sr1::settings::Settings
        ensures { result ≡ sr1_of self epsilon numbers.now }
    {
        let [radius, eta, factor, tol_grad] = *numbers;
        let chosen = self.choice(epsilon);
        let told = sr1::settings::Settings::of(chosen, radius, eta, factor, tol_grad);
        told.with_edition(self.edition)
            .with_allowance(self.allowance)
    }
}

// ---- phases

// A phase: its number, and what a cost is awaited on, the promise and the step norm, each 0 where none is.
#[derive(Clone, Copy)]
pub struct Turn {
    pub number: u64,
    pub promise: f64,
    pub norm: f64,
}

impl From<Turn> for Phase {
    ghost from_gives = { λ turn phase. phase ≡ Codec.phase_of turn };

    fn from(turn: Turn) -> Phase {
        match turn.number {
            0 => Phase::Ready,
            1 => Phase::AwaitingCost(turn.promise, turn.norm),
            _ => Phase::AwaitingDerivatives,
        }
    }
}

impl From<Phase> for Turn {
    ghost from_gives = { λ phase turn. turn ≡ Codec.turn_of phase };

    fn from(phase: Phase) -> Turn {
        let (number, promise, norm) = match phase {
            Phase::Ready => (0, 0.0, 0.0),
            Phase::AwaitingCost(promise, norm) => (1, promise, norm),
            Phase::AwaitingDerivatives => (2, 0.0, 0.0),
        };
        Turn {
            number,
            promise,
            norm,
        }
    }
}
