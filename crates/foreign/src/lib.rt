// The functions as C and Rust may call them. All that a library exports stands here and in foreign_sessions, by a name that begins with
// mboyaxin_. A Result cannot cross that border: what may be refused returns the refusal's number, 0 for none, and writes what it
// gives where it is told, which a refusal leaves as it was. The benchmarks time the root and the kernels here, and what reads the bits of
// a NaN from outside calls the rest.
#![tactic(auto, using(crate::proofs::Codes::fills, crate::proofs::Codes::clears, crate::proofs::Codes::numbers))]

ghost use Rattle.std.specs.Prelude.{◌≡◌, true};
ghost use Rattle.std.specs.Float.{binary64};
ghost use Rattle.std.specs.Float.Ieee.{of_bits, to_bits};
ghost use Rattle.float.specs.Numbers as Numbers;
ghost use Rattle.root.specs.Root as Root;
ghost use Rattle.vectors.specs.Vector as Vector;
ghost use Rattle.vectors.specs.Calls.{tells, dot_answer, norm_answer, weighted_answer, product_answer};
ghost use Rattle.kernels.specs.Ratio.{reduction_ratio};
ghost use Rattle.kernels.specs.Kernel.{called, bounded};
ghost use Rattle.kernels.specs.CauchyPoint.{cauchy_point};
ghost use Rattle.kernels.specs.Dogleg.{dogleg};
ghost use Rattle.kernels.specs.Textbook.{textbook_dogleg};
ghost use Rattle.kernels.specs.Steihaug.{steihaug};
ghost use Rattle.kernels.specs.Inverse.{inverse_answer};
ghost use Rattle.foreign.specs.Foreign as Foreign;
ghost use Rattle.foreign.specs.Foreign.{Numbered, Filled, Cleared};

use vectors::refusal::Refusal;

// ---- scalars

#[unsafe(no_mangle)]
pub extern "C" fn mboyaxin_root(x: f64) -> f64
    ensures { result ≡ Root.root x }
{
    root::root(x)
}

#[unsafe(no_mangle)]
pub extern "C" fn mboyaxin_magnitude(x: f64) -> f64
    ensures { result ≡ Numbers.magnitude x }
{
    float::magnitude(x)
}

#[unsafe(no_mangle)]
pub extern "C" fn mboyaxin_smaller(x: f64, y: f64) -> f64
    ensures { result ≡ Numbers.smaller x y }
{
    float::smaller(x, y)
}

#[unsafe(no_mangle)]
pub extern "C" fn mboyaxin_one_nan(x: f64) -> f64
    ensures { result ≡ x }
{
    float::one_nan(x)
}

#[unsafe(no_mangle)]
pub extern "C" fn mboyaxin_float_of(bits: u64) -> f64
    ensures { result ≡ of_bits binary64 bits }
{
    float::float_of(bits)
}

#[unsafe(no_mangle)]
pub extern "C" fn mboyaxin_bits_of(x: f64) -> u64
    ensures { result ≡ to_bits binary64 x }
{
    float::bits_of(x)
}

// ---- what may be refused

// The refusal's number, and 0 for none.
fn code<T: Copy>(found: Result<T, Refusal>) -> u64
    ensures { result ≡ Foreign.result_code found }
{
    match found {
        Ok(_) => 0,
        Err(r) => u64::from(r),
    }
}

// ---- numbers of lists

fn write(found: Result<f64, Refusal>, out: &mut f64) -> u64
    ensures { Filled (tells found) result out.old out.new }
{
    if let Ok(x) = found {
        *out = x;
    }
    code(found)
}

#[unsafe(no_mangle)]
pub extern "C" fn mboyaxin_dot(n: usize, a: &[f64], b: &[f64], out: &mut f64) -> u64
    ensures { Filled (dot_answer n a.now b.now) result out.old out.new }
{
    write(vectors::vector::dot(n, a, b), out)
}

#[unsafe(no_mangle)]
pub extern "C" fn mboyaxin_norm(n: usize, a: &[f64], out: &mut f64) -> u64
    ensures { Filled (norm_answer n a.now) result out.old out.new }
{
    write(vectors::vector::norm(n, a), out)
}

#[unsafe(no_mangle)]
pub extern "C" fn mboyaxin_weighted_dot(
    n: usize,
    a: &[f64],
    h: &[f64],
    b: &[f64],
    out: &mut f64,
) -> u64
    ensures { Filled (weighted_answer n a.now h.now b.now) result out.old out.new }
{
    write(vectors::vector::weighted_dot(n, a, h, b), out)
}

#[unsafe(no_mangle)]
pub extern "C" fn mboyaxin_dot_any(a: &[f64], b: &[f64]) -> f64
    ensures { result ≡ Vector.dot a.now b.now }
{
    vectors::vector::dot_any(a, b)
}

#[unsafe(no_mangle)]
pub extern "C" fn mboyaxin_norm_any(a: &[f64]) -> f64
    ensures { result ≡ Vector.norm a.now }
{
    vectors::vector::norm_any(a)
}

#[unsafe(no_mangle)]
pub extern "C" fn mboyaxin_largest(v: &[f64]) -> f64
    ensures { result ≡ Vector.largest v.now }
{
    vectors::vector::largest(v)
}

#[unsafe(no_mangle)]
pub extern "C" fn mboyaxin_reduction_ratio(
    cost: f64,
    trial_cost: f64,
    model_start: f64,
    model_trial: f64,
) -> f64
    ensures { result ≡ reduction_ratio cost trial_cost model_start model_trial }
{
    kernels::reduction_ratio(cost, trial_cost, model_start, model_trial)
}

// ---- lists

#[unsafe(no_mangle)]
pub extern "C" fn mboyaxin_product(n: usize, h: &[f64], d: &[f64], out: &mut [f64]) -> u64
    ensures { Filled (product_answer n h.now d.now out.old) result out.old out.new }
{
    code(vectors::vector::product(n, h, d, out))
}

#[unsafe(no_mangle)]
pub extern "C" fn mboyaxin_inverse(n: usize, h: &[f64], out: &mut [f64], scratch: &mut [f64]) -> u64
    ensures { Cleared (inverse_answer n h.now out.old scratch.old)
        result out.old out.new scratch.old scratch.new }
{
    code(kernels::inverse::inverse(n, h, out, scratch))
}

// ---- kernels, all of one shape: Cauchy and Dogleg pass over epsilon and limit

#[unsafe(no_mangle)]
pub extern "C" fn mboyaxin_cauchy_point(
    n: usize,
    radius: f64,
    epsilon: f64,
    limit: u64,
    gradient: &[f64],
    hessian: &[f64],
    step: &mut [f64],
    scratch: &mut [f64],
) -> u64
    ensures { Numbered (called true cauchy_point n radius gradient.now hessian.now step.old scratch.old)
        result step.old step.new scratch.old scratch.new }
{
    code(kernels::cauchypoint::cauchy_point(n, radius, gradient, hessian, step, scratch))
}

#[unsafe(no_mangle)]
pub extern "C" fn mboyaxin_dogleg(
    n: usize,
    radius: f64,
    epsilon: f64,
    limit: u64,
    gradient: &[f64],
    hessian: &[f64],
    step: &mut [f64],
    scratch: &mut [f64],
) -> u64
    ensures { Numbered (called true dogleg n radius gradient.now hessian.now step.old scratch.old)
        result step.old step.new scratch.old scratch.new }
{
    code(kernels::dogleg::dogleg(n, radius, gradient, hessian, step, scratch))
}

#[unsafe(no_mangle)]
pub extern "C" fn mboyaxin_textbook_dogleg(
    n: usize,
    radius: f64,
    epsilon: f64,
    limit: u64,
    gradient: &[f64],
    hessian: &[f64],
    step: &mut [f64],
    scratch: &mut [f64],
) -> u64
    ensures { Numbered (called true textbook_dogleg n radius gradient.now hessian.now step.old scratch.old)
        result step.old step.new scratch.old scratch.new }
{
    code(kernels::textbook::textbook_dogleg(n, radius, gradient, hessian, step, scratch))
}

#[unsafe(no_mangle)]
pub extern "C" fn mboyaxin_steihaug(
    n: usize,
    radius: f64,
    epsilon: f64,
    limit: u64,
    gradient: &[f64],
    hessian: &[f64],
    step: &mut [f64],
    scratch: &mut [f64],
) -> u64
    ensures { Numbered (called (bounded epsilon limit) (steihaug epsilon limit) n radius gradient.now hessian.now step.old scratch.old)
        result step.old step.new scratch.old scratch.new }
{
    code(kernels::steihaug::steihaug(n, radius, epsilon, limit, gradient, hessian, step, scratch))
}
