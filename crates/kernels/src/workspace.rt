// Vectors of n numbers in the lent scratch w. Slot k is its k-th run of n numbers.
ghost use Rattle.std.specs.Prelude.{◌≡◌, false, ◌+◌, ◌*◌, ◌≤◌, eqb, length, Float};
ghost use Rattle.vectors.specs.Vector as Vector;
ghost use Rattle.vectors.specs.Slots.{slot, Puts};
ghost use Rattle.vectors.specs.Refusal.{Square};
ghost use Rattle.kernels.specs.Workspace as Workspace;

use vectors::vector;

// Slot to takes f of the numbers of slot x.
pub(crate) fn map<F: Fn(f64) -> f64>(n: usize, w: &mut [f64], to: usize, x: usize, f: F)
    ghost op: { Float → Float }
    requires room { (to * n + n ≤ length w.old) × (x * n + n ≤ length w.old) }
    requires calls { F.IsAlwaysCallable f }
    requires gives { (a r : Float) → F.post f a r → r ≡ op a }
    ensures { Puts w.old n to (Workspace.map n op (slot w.old n x)) w.new }
{
    let start = to * n;
    let from = x * n;
    for i in 0..n {
        w[start + i] = f(w[from + i]);
    }
}

// Slot to takes f of the numbers of slots x and y.
pub(crate) fn zip<F: Fn(f64, f64) -> f64>(
    n: usize,
    w: &mut [f64],
    to: usize,
    x: usize,
    y: usize,
    f: F,
)
    ghost op: { Float → Float → Float }
    requires room { (to * n + n ≤ length w.old) × (x * n + n ≤ length w.old) × (y * n + n ≤ length w.old) }
    requires calls { F.IsAlwaysCallable f }
    requires gives { (a b r : Float) → F.post f a b r → r ≡ op a b }
    ensures { Puts w.old n to (Workspace.zip n op (slot w.old n x) (slot w.old n y)) w.new }
{
    let start = to * n;
    let from = x * n;
    let by = y * n;
    for i in 0..n {
        w[start + i] = f(w[from + i], w[by + i]);
    }
}

// Slot to takes slot x.
pub(crate) fn copy(n: usize, w: &mut [f64], to: usize, x: usize)
    requires { (to * n + n ≤ length w.old) × (x * n + n ≤ length w.old) }
    ensures { Puts w.old n to (slot w.old n x) w.new }
{
    let from = x * n;
    w.copy_within(from..from + n, to * n);
}

// Slot k, as that part of w.
pub(crate) fn part(n: usize, w: &[f64], k: usize) -> &[f64]
    requires { k * n + n ≤ length w.now }
    ensures { (result.now ≡ slot w.now n k) × (length result.now ≡ n) }
{
    let from = k * n;
    &w[from..from + n]
}

// Slot to takes v. A vector that is handed out is its own slot 0, hence one_nan.
pub(crate) fn put(n: usize, w: &mut [f64], to: usize, v: &[f64])
    requires { (to * n + n ≤ length w.old) × (length v.now ≡ n) }
    ensures { Puts w.old n to v.now w.new }
{
    let start = to * n;
    for (i, x) in w[start..start + n].iter_mut().enumerate() {
        *x = float::one_nan(v[i]);
    }
}

// Slot to takes v·a.
pub(crate) fn put_times(n: usize, w: &mut [f64], to: usize, v: &[f64], a: f64)
    requires { (to * n + n ≤ length w.old) × (length v.now ≡ n) }
    ensures { Puts w.old n to (Vector.scale n v.now a) w.new }
{
    let start = to * n;
    for (i, x) in w[start..start + n].iter_mut().enumerate() {
        *x = v[i] * a;
    }
}

// Slot to takes H times slot x, another one.
pub(crate) fn times(n: usize, w: &mut [f64], to: usize, h: &[f64], x: usize)
    requires { (to * n + n ≤ length w.old) × (x * n + n ≤ length w.old) × Square n (length h.now) × (eqb x to ≡ false) }
    ensures { Puts w.old n to (Vector.times n h.now (slot w.old n x)) w.new }
{
    let start = to * n;
    for i in 0..n {
        w[start + i] = vector::dot_any(vector::row(n, h, i), part(n, w, x));
    }
}

// The dot of slots x and y.
pub(crate) fn dot(n: usize, w: &[f64], x: usize, y: usize) -> f64
    requires { (x * n + n ≤ length w.now) × (y * n + n ≤ length w.now) }
    ensures { result ≡ Vector.dot (slot w.now n x) (slot w.now n y) }
{
    vector::dot_any(part(n, w, x), part(n, w, y))
}

// The norm of slot x.
pub(crate) fn norm(n: usize, w: &[f64], x: usize) -> f64
    requires { x * n + n ≤ length w.now }
    ensures { result ≡ Vector.norm (slot w.now n x) }
{
    vector::norm_any(part(n, w, x))
}
