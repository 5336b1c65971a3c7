// The archive for C of what `foreign` has: each function is that of the same name there, with the same promise. The header is include/mboyaxin.h.
#![tactic(auto)]

ghost use Rattle.std.specs.Prelude.{◌≡◌, true};
ghost use Rattle.std.specs.Float.{binary64};
ghost use Rattle.std.specs.Float.Ieee.{of_bits, to_bits};
ghost use Rattle.float.specs.Numbers as Numbers;
ghost use Rattle.root.specs.Root as Root;
ghost use Rattle.vectors.specs.Vector as Vector;
ghost use Rattle.vectors.specs.Calls.{dot_answer, norm_answer, weighted_answer, product_answer};
ghost use Rattle.kernels.specs.Ratio.{reduction_ratio};
ghost use Rattle.kernels.specs.Kernel.{called, bounded};
ghost use Rattle.kernels.specs.CauchyPoint.{cauchy_point};
ghost use Rattle.kernels.specs.Dogleg.{dogleg};
ghost use Rattle.kernels.specs.Textbook.{textbook_dogleg};
ghost use Rattle.kernels.specs.Steihaug.{steihaug};
ghost use Rattle.kernels.specs.Inverse.{inverse_answer};
ghost use Rattle.foreign.specs.Foreign.{Numbered, Filled, Cleared};

#[unsafe(no_mangle)]
pub extern "C" fn mboyaxin_root(x: f64) -> f64
    ensures { result ≡ Root.root x }
{
    foreign::mboyaxin_root(x)
}

#[unsafe(no_mangle)]
pub extern "C" fn mboyaxin_magnitude(x: f64) -> f64
    ensures { result ≡ Numbers.magnitude x }
{
    foreign::mboyaxin_magnitude(x)
}

#[unsafe(no_mangle)]
pub extern "C" fn mboyaxin_smaller(x: f64, y: f64) -> f64
    ensures { result ≡ Numbers.smaller x y }
{
    foreign::mboyaxin_smaller(x, y)
}

#[unsafe(no_mangle)]
pub extern "C" fn mboyaxin_one_nan(x: f64) -> f64
    ensures { result ≡ x }
{
    foreign::mboyaxin_one_nan(x)
}

#[unsafe(no_mangle)]
pub extern "C" fn mboyaxin_float_of(bits: u64) -> f64
    ensures { result ≡ of_bits binary64 bits }
{
    foreign::mboyaxin_float_of(bits)
}

#[unsafe(no_mangle)]
pub extern "C" fn mboyaxin_bits_of(x: f64) -> u64
    ensures { result ≡ to_bits binary64 x }
{
    foreign::mboyaxin_bits_of(x)
}

#[unsafe(no_mangle)]
pub extern "C" fn mboyaxin_dot(n: usize, a: &[f64], b: &[f64], out: &mut f64) -> u64
    ensures { Filled (dot_answer n a.now b.now) result out.old out.new }
{
    foreign::mboyaxin_dot(n, a, b, out)
}

#[unsafe(no_mangle)]
pub extern "C" fn mboyaxin_norm(n: usize, a: &[f64], out: &mut f64) -> u64
    ensures { Filled (norm_answer n a.now) result out.old out.new }
{
    foreign::mboyaxin_norm(n, a, out)
}

#[unsafe(no_mangle)]
pub extern "C" fn mboyaxin_weighted_dot(
    n: usize,
    a: &[f64],
    h: &[f64],
    b: &[f64],
    out: &mut f64,
) -> u64
    ensures { Filled (weighted_answer n a.now h.now b.now) result out.old out.new }
{
    foreign::mboyaxin_weighted_dot(n, a, h, b, out)
}

#[unsafe(no_mangle)]
pub extern "C" fn mboyaxin_dot_any(a: &[f64], b: &[f64]) -> f64
    ensures { result ≡ Vector.dot a.now b.now }
{
    foreign::mboyaxin_dot_any(a, b)
}

#[unsafe(no_mangle)]
pub extern "C" fn mboyaxin_norm_any(a: &[f64]) -> f64
    ensures { result ≡ Vector.norm a.now }
{
    foreign::mboyaxin_norm_any(a)
}

#[unsafe(no_mangle)]
pub extern "C" fn mboyaxin_largest(v: &[f64]) -> f64
    ensures { result ≡ Vector.largest v.now }
{
    foreign::mboyaxin_largest(v)
}

#[unsafe(no_mangle)]
pub extern "C" fn mboyaxin_reduction_ratio(
    cost: f64,
    trial_cost: f64,
    model_start: f64,
    model_trial: f64,
) -> f64
    ensures { result ≡ reduction_ratio cost trial_cost model_start model_trial }
{
    foreign::mboyaxin_reduction_ratio(cost, trial_cost, model_start, model_trial)
}

#[unsafe(no_mangle)]
pub extern "C" fn mboyaxin_product(n: usize, h: &[f64], d: &[f64], out: &mut [f64]) -> u64
    ensures { Filled (product_answer n h.now d.now out.old) result out.old out.new }
{
    foreign::mboyaxin_product(n, h, d, out)
}

#[unsafe(no_mangle)]
pub extern "C" fn mboyaxin_inverse(n: usize, h: &[f64], out: &mut [f64], scratch: &mut [f64]) -> u64
    ensures { Cleared (inverse_answer n h.now out.old scratch.old)
        result out.old out.new scratch.old scratch.new }
{
    foreign::mboyaxin_inverse(n, h, out, scratch)
}

#[unsafe(no_mangle)]
pub extern "C" fn mboyaxin_cauchy_point(
    n: usize,
    radius: f64,
    epsilon: f64,
    limit: u64,
    gradient: &[f64],
    hessian: &[f64],
    step: &mut [f64],
    scratch: &mut [f64],
) -> u64
    ensures { Numbered (called true cauchy_point n radius gradient.now hessian.now step.old scratch.old)
        result step.old step.new scratch.old scratch.new }
{
    foreign::mboyaxin_cauchy_point(n, radius, epsilon, limit, gradient, hessian, step, scratch)
}

#[unsafe(no_mangle)]
pub extern "C" fn mboyaxin_dogleg(
    n: usize,
    radius: f64,
    epsilon: f64,
    limit: u64,
    gradient: &[f64],
    hessian: &[f64],
    step: &mut [f64],
    scratch: &mut [f64],
) -> u64
    ensures { Numbered (called true dogleg n radius gradient.now hessian.now step.old scratch.old)
        result step.old step.new scratch.old scratch.new }
{
    foreign::mboyaxin_dogleg(n, radius, epsilon, limit, gradient, hessian, step, scratch)
}

#[unsafe(no_mangle)]
pub extern "C" fn mboyaxin_textbook_dogleg(
    n: usize,
    radius: f64,
    epsilon: f64,
    limit: u64,
    gradient: &[f64],
    hessian: &[f64],
    step: &mut [f64],
    scratch: &mut [f64],
) -> u64
    ensures { Numbered (called true textbook_dogleg n radius gradient.now hessian.now step.old scratch.old)
        result step.old step.new scratch.old scratch.new }
{
    foreign::mboyaxin_textbook_dogleg(n, radius, epsilon, limit, gradient, hessian, step, scratch)
}

#[unsafe(no_mangle)]
pub extern "C" fn mboyaxin_steihaug(
    n: usize,
    radius: f64,
    epsilon: f64,
    limit: u64,
    gradient: &[f64],
    hessian: &[f64],
    step: &mut [f64],
    scratch: &mut [f64],
) -> u64
    ensures { Numbered (called (bounded epsilon limit) (steihaug epsilon limit) n radius gradient.now hessian.now step.old scratch.old)
        result step.old step.new scratch.old scratch.new }
{
    foreign::mboyaxin_steihaug(n, radius, epsilon, limit, gradient, hessian, step, scratch)
}
