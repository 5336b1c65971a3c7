// A kernel's case as the programs read it, in words of 8 bytes: kernel 1 to 3, n, radius, epsilon,
// limit, g, H; and as they write it.
#![tactic(auto)]

pub mod lines;

ghost use Rattle.std.specs.Prelude.{◌≡◌, ◌+◌, ◌*◌, ◌≤◌, length};
ghost use Rattle.vectors.specs.Vector.{zeros};
ghost use Rattle.vectors.specs.Refusal.{Square, Roomy};
ghost use Rattle.kernels.specs.Kernel.{Took};
ghost use Rattle.case.specs.Case as Case;
ghost use Rattle.case.specs.Case.{numbers, choice_of, radius_of, case_answer, said, Answered};

use kernels::choice;
use kernels::choice::Choice;
use kernels::kernel::Stepped;
use vectors::refusal;
use vectors::refusal::Refusal;

// What is said of a case's step, beside its numbers.
#[derive(Clone, Copy, Debug, PartialEq, Eq)]
pub struct Step {
    pub size: usize,
    pub passes: u64,
}

// The answer to a case, or why there is none. The step is left at the front of `step`. The other lists are
// room to work in.
pub fn answer(
    bytes: &[u8],
    gradient: &mut [f64],
    hessian: &mut [f64],
    step: &mut [f64],
    scratch: &mut [f64],
) -> Result<Step, Refusal>
    ensures { Answered bytes.now result gradient.old gradient.new hessian.old hessian.new
        step.old step.new scratch.old scratch.new }
{
    Refusal::Size.unless(enough(gradient.len(), hessian.len(), step.len(), scratch.len()))?;
    let n = word(bytes, 1) as usize;
    Refusal::Size.unless(fits(bytes.len(), n))?;
    let square = n * n;
    let made = solve(
        bytes,
        n,
        &mut gradient[..n],
        &mut hessian[..square],
        &mut step[..n],
        &mut scratch[..2 * square + 8 * n],
    )?;
    Ok(Step {
        size: n,
        passes: made.passes,
    })
}

// Lists as long as the largest case takes.
#[derive(Drop)]
pub struct Workspace {
    pub gradient: [f64; 64],
    pub hessian: [f64; 4096],
    pub step: [f64; 64],
    pub scratch: [f64; 8704],
}

impl Workspace {
    pub fn new() -> Self
        ensures { (result.gradient ≡ zeros 64) × (result.hessian ≡ zeros 4096) × (result.step ≡ zeros 64) × (result.scratch ≡ zeros 8704) }
    {
        Workspace {
            gradient: [0.0; 64],
            hessian: [0.0; 4096],
            step: [0.0; 64],
            scratch: [0.0; 8704],
        }
    }

    // The answer to a case, whose step is left at the front of `step`: here no case lacks room.
    pub fn answer(&mut self, bytes: &[u8]) -> Result<Step, Refusal>
        ensures says { result ≡ said (case_answer bytes.now) }
        ensures leaves { Answered bytes.now result self.old.gradient self.new.gradient self.old.hessian self.new.hessian
            self.old.step self.new.step self.old.scratch self.new.scratch }
    {
        answer(
            bytes,
            &mut self.gradient,
            &mut self.hessian,
            &mut self.step,
            &mut self.scratch,
        )
    }
}

// The room that the largest case takes.
fn enough(gradient: usize, hessian: usize, step: usize, scratch: usize) -> bool
    ensures { result ≡ Case.enough gradient hessian step scratch }
{
    64 <= gradient && 4096 <= hessian && 64 <= step && 8704 <= scratch
}

// Whether so many bytes are the words of a case of size n.
#[tactic(auto, using(vectors::proofs::Sizes::square_small), unfolding(vectors::specs::Refusal::size))]
fn fits(bytes: usize, n: usize) -> bool
    ensures { result ≡ Case.fits bytes n }
{
    refusal::size(n) && bytes == 8 * (5 + n + n * n)
}

// Reads g and H, and runs the kernel on them: its own checks are those of a direct caller.
fn solve(
    bytes: &[u8],
    n: usize,
    gradient: &mut [f64],
    hessian: &mut [f64],
    step: &mut [f64],
    scratch: &mut [f64],
) -> Result<Stepped, Refusal>
    requires { Square n (length hessian.old) × (length gradient.old ≡ n) × (length step.old ≡ n) × Roomy n (length scratch.old) }
    ensures { Took (Case.run (choice_of bytes.now) n (radius_of bytes.now)
        (numbers bytes.now 5 n) (numbers bytes.now (5 + n) (n * n)))
        result step.old step.new scratch.old scratch.new
        × (gradient.new ≡ numbers bytes.now 5 n) × (hessian.new ≡ numbers bytes.now (5 + n) (n * n)) }
{
    fill(bytes, 5, gradient);
    fill(bytes, 5 + n, hessian);
    let chosen = Choice::of(word(bytes, 0), number(bytes, 3), word(bytes, 4));
    let radius = number(bytes, 2);
    choice::direct(chosen, n, radius, gradient, hessian, step, scratch)
}

// Fills a list with the numbers from word `from` on.
fn fill(bytes: &[u8], from: usize, out: &mut [f64])
    requires { (from ≤ 69) × (length out.old ≤ 4096) }
    ensures { out.new ≡ numbers bytes.now from (length out.old) }
{
    for (i, x) in out.iter_mut().enumerate() {
        *x = number(bytes, from + i);
    }
}

// Word i, of which no case has more than 4165.
fn word(bytes: &[u8], i: usize) -> u64
    requires { i ≤ 4165 }
    ensures { result ≡ Case.word bytes.now i }
{
    words::word_at(bytes, 8 * i)
}

// The same as a number.
fn number(bytes: &[u8], i: usize) -> f64
    requires { i ≤ 4165 }
    ensures { result ≡ Case.number bytes.now i }
{
    float::float_of(word(bytes, i))
}
