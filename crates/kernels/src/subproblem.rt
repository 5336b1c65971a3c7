// What a kernel minimises: the model m(p) = f + g·p + ½·p·(H·p) of the function, over the points p within the radius
// (Nocedal and Wright, Numerical Optimization, chapter 4).
ghost use Rattle.std.specs.Prelude.{◌≡◌, length};
ghost use Rattle.vectors.specs.Vector as Vector;
ghost use Rattle.vectors.specs.Refusal.{Square};
ghost use Rattle.kernels.specs.Steihaug.{model};

use vectors::vector;

// The model's gradient g and Hessian H, of n and of n·n numbers, and the radius. Whoever makes one has looked at the sizes.
#[derive(Clone, Copy)]
pub(crate) struct Subproblem<'a> {
    pub n: usize,
    pub radius: f64,
    pub gradient: &'a [f64],
    pub hessian: &'a [f64],
    ghost square: { Square n (length hessian.now) },
    ghost long: { length gradient.now ≡ n },
}

impl Subproblem<'_> {
    // x·(H·x)
    pub(crate) fn curvature(&self, x: &[f64]) -> f64
        requires { length x.now ≡ self.now.n }
        ensures { result ≡ Vector.weighted self.now.n x.now self.now.hessian.now x.now }
    {
        vector::value(vector::weighted_dot(self.n, x, self.hessian, x))
    }

    // m(x) − f
    #[tactic(auto, unfolding(crate::specs::Steihaug::model))]
    pub(crate) fn model(&self, x: &[f64]) -> f64
        requires { length x.now ≡ self.now.n }
        ensures { result ≡ model self.now.n self.now.gradient.now self.now.hessian.now x.now }
    {
        vector::dot_any(self.gradient, x) + 0.5 * self.curvature(x)
    }
}
