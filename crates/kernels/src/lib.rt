// The trust-region kernels of argmin's solver/trustregion, a second dogleg, the workspace and the inverse below them.
#![tactic(auto)]

pub mod cauchypoint;
pub mod choice;
pub mod dogleg;
pub mod inverse;
pub mod kernel;
pub mod steihaug;
mod subproblem;
pub mod textbook;
mod workspace;

ghost use Rattle.std.specs.Prelude.{◌≡◌};
ghost use Rattle.kernels.specs.Ratio.{reduction_ratio};

// argmin's reduction_ratio: the fall of the cost over the fall that the model promised.
pub fn reduction_ratio(cost: f64, trial_cost: f64, model_start: f64, model_trial: f64) -> f64
    ensures { result ≡ reduction_ratio cost trial_cost model_start model_trial }
{
    float::one_nan((cost - trial_cost) / (model_start - model_trial))
}
