// A kernel's choice: one inner door for both sessions, and the way that every direct caller goes.
ghost use Rattle.std.specs.Prelude.{◌≡◌, ◌&&◌, length};
ghost use Rattle.vectors.specs.Refusal.{Roomy};
ghost use Rattle.kernels.specs.Kernel.{positive, Laid, Reached, Took, called};
ghost use Rattle.kernels.specs.Subproblem.{on};
ghost use Rattle.kernels.specs.Choice as Definition;
ghost use Rattle.kernels.specs.Choice.{by_default, choice_of, choosing, in_range, door, kernel_of, bounds_of, Names};

use crate::kernel::Stepped;
use crate::subproblem::Subproblem;
use crate::{cauchypoint, dogleg, kernel, steihaug, textbook};
use vectors::refusal::Refusal;
use vectors::{refusal, vector};

// Which kernel, and what it is told beside the radius and its lists: epsilon and the limit are Steihaug's, and of the two
// doglegs 1 is the ported one, 2 the textbook's. A caller may give any numbers, and those that name nothing are refused by 2:
// so these are numbers still, and `Kernel` is what they name.
#[derive(Clone, Copy)]
pub struct Choice {
    pub kernel: u64,
    pub epsilon: f64,
    pub limit: u64,
    pub dogleg: u64,
}

impl Choice {
    pub const EPSILON: f64 = 1e-9;

    pub const DOGLEG: u64 = 1;

    // The default for all but the kernel and Steihaug's iteration limit, which have none.
    pub fn new(kernel: u64, limit: u64) -> Self
        ensures { result ≡ by_default kernel limit }
    {
        Self::of(kernel, Self::EPSILON, limit)
    }

    // Of what is told. Whatever else a choice may come to hold gets its default here, and no caller need know it.
    pub fn of(kernel: u64, epsilon: f64, limit: u64) -> Self
        ensures { result ≡ choice_of kernel epsilon limit }
    {
        Self {
            kernel,
            epsilon,
            limit,
            dogleg: Self::DOGLEG,
        }
    }

    // With this one of the two doglegs.
    pub fn with_dogleg(mut self, dogleg: u64) -> Self
        ensures { result ≡ choosing dogleg self }
    {
        self.dogleg = dogleg;
        self
    }
}

// The kernels by name, each with what it is told beside the subproblem.
#[derive(Clone, Copy)]
pub(crate) enum Kernel {
    CauchyPoint,
    Dogleg,
    Textbook,
    Steihaug { epsilon: f64, limit: u64 },
}

// The kernel that a choice's numbers name; of others refusal 2: a kernel is 1 to 3 and a dogleg 1 or 2, whatever the kernel.
impl TryFrom<Choice> for Kernel {
    type Error = Refusal;

    ghost try_from_gives = { Names };

    #[tactic(auto, unfolding(crate::specs::Choice::among, crate::specs::Choice::known, crate::specs::Choice::in_range, crate::specs::Choice::asked, crate::specs::Choice::kernel))]
    fn try_from(choice: Choice) -> Result<Self, Refusal> {
        match (choice.kernel, choice.dogleg) {
            (1, 1 | 2) => Ok(Kernel::CauchyPoint),
            (2, 1) => Ok(Kernel::Dogleg),
            (2, 2) => Ok(Kernel::Textbook),
            (3, 1 | 2) => Ok(Kernel::Steihaug {
                epsilon: choice.epsilon,
                limit: choice.limit,
            }),
            _ => Err(Refusal::Setting),
        }
    }
}

// What a session asks of its choice, whatever the kernel.
#[tactic(auto, unfolding(crate::specs::Choice::in_range))]
pub fn in_range(choice: Choice) -> bool
    ensures { result ≡ in_range choice }
{
    refusal::all_hold(&[
        Kernel::try_from(choice).is_ok(),
        kernel::bounded(choice.epsilon, choice.limit),
    ])
}

impl Kernel {
    // What it asks of its settings: only Steihaug looks at epsilon and the limit.
    fn bounded(self) -> bool
        ensures { result ≡ bounds_of self }
    {
        match self {
            Kernel::Steihaug { epsilon, limit } => kernel::bounded(epsilon, limit),
            _ => true,
        }
    }

    // What a direct caller is asked for beside the lists.
    fn settings_right(self, radius: f64) -> bool
        ensures { result ≡ (positive radius && bounds_of self) }
    {
        kernel::positive(radius) && self.bounded()
    }

    fn run(self, problem: &Subproblem, w: &mut [f64]) -> Result<Stepped, Refusal>
        requires { Roomy problem.now.n (length w.old) }
        ensures { Reached (on (kernel_of self) problem.now) result w.old w.new }
    {
        match self {
            Kernel::CauchyPoint => cauchypoint::lay(problem, w),
            Kernel::Dogleg => dogleg::lay(problem, w),
            Kernel::Textbook => textbook::lay(problem, w),
            Kernel::Steihaug { epsilon, limit } => steihaug::lay(problem, epsilon, limit, w),
        }
    }

    // The same, and a refusal leaves +0 in the scratch.
    fn lay(self, problem: &Subproblem, w: &mut [f64]) -> Result<Stepped, Refusal>
        requires { Roomy problem.now.n (length w.old) }
        ensures { Laid (on (kernel_of self) problem.now) result w.old w.new }
    {
        let found = self.run(problem, w);
        if found.is_err() {
            vector::clear(w);
        }
        found
    }

    // For a direct caller whose lists have the right lengths: refusals 2 and 4 before the kernel, and the copy after it.
    fn call_sized(
        self,
        problem: &Subproblem,
        step: &mut [f64],
        scratch: &mut [f64],
    ) -> Result<Stepped, Refusal>
        requires { (length step.old ≡ problem.now.n) × Roomy problem.now.n (length scratch.old) }
        ensures { Took (called (bounds_of self) (kernel_of self) problem.now.n problem.now.radius problem.now.gradient.now problem.now.hessian.now step.old scratch.old)
            result step.old step.new scratch.old scratch.new }
    {
        Refusal::Setting.unless(self.settings_right(problem.radius))?;
        Refusal::Entry.unless(vector::both_finite(problem.gradient, problem.hessian))?;
        let found = self.lay(problem, scratch);
        kernel::hand_over(problem.n, found, step, scratch)
    }

    // The same for any lists: refusal 1 comes first.
    pub(crate) fn call(
        self,
        n: usize,
        radius: f64,
        gradient: &[f64],
        hessian: &[f64],
        step: &mut [f64],
        scratch: &mut [f64],
    ) -> Result<Stepped, Refusal>
        ensures { Took (called (bounds_of self) (kernel_of self) n radius gradient.now hessian.now step.old scratch.old)
            result step.old step.new scratch.old scratch.new }
    {
        kernel::lent(n, hessian.len(), gradient.len(), step.len(), scratch.len())?;
        let problem = Subproblem {
            n,
            radius,
            gradient,
            hessian,
        };
        self.call_sized(&problem, step, scratch)
    }
}

// The sessions' door, for callers that have looked. Asked here is what no kernel can run without: n, the lengths, and the
// numbers of the kernel and the dogleg. A radius that is zero, negative or a NaN, an epsilon or a limit out of range, and a NaN in the gradient
// or the Hessian are taken as they come. The step is left in the scratch. It is public since the sessions stand in crates
// of their own, and the language has no narrower word for that; other callers use `direct`.
pub fn lay_unchecked(
    choice: Choice,
    n: usize,
    radius: f64,
    gradient: &[f64],
    hessian: &[f64],
    scratch: &mut [f64],
) -> Result<Stepped, Refusal>
    ensures { Laid (door choice n radius gradient.now hessian.now scratch.old) result scratch.old scratch.new }
{
    // no step is lent here, hence n for its length
    kernel::lent(n, hessian.len(), gradient.len(), n, scratch.len())?;
    let kernel = Kernel::try_from(choice)?;
    let problem = Subproblem {
        n,
        radius,
        gradient,
        hessian,
    };
    kernel.lay(&problem, scratch)
}

// The kernel that is chosen, for a direct caller.
pub fn direct(
    choice: Choice,
    n: usize,
    radius: f64,
    gradient: &[f64],
    hessian: &[f64],
    step: &mut [f64],
    scratch: &mut [f64],
) -> Result<Stepped, Refusal>
    ensures { Took (called (Definition.asked choice) (Definition.kernel choice) n radius gradient.now hessian.now step.old scratch.old)
        result step.old step.new scratch.old scratch.new }
{
    kernel::lent(n, hessian.len(), gradient.len(), step.len(), scratch.len())?;
    let problem = Subproblem {
        n,
        radius,
        gradient,
        hessian,
    };
    Kernel::try_from(choice)?.call_sized(&problem, step, scratch)
}
