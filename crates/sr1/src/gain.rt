// What an update adds to the Hessian: the entry in row i and column j gains z_i·z_j·(1/q).
ghost use Rattle.std.specs.Prelude.{◌≡◌, ◌+◌, ◌*◌, ◌≤◌, ◌<◌, length};
ghost use Rattle.float.specs.Numbers.{◌⊕◌, ◌⊗◌};
ghost use Rattle.vectors.specs.Vector.{all_finite};
ghost use Rattle.vectors.specs.Slots.{Puts};
ghost use Rattle.vectors.specs.Refusal.{Square};
ghost use Rattle.sr1.specs.Session.{gained_row, gained};

// The n numbers of z, and 1/q.
#[derive(Clone, Copy)]
pub(crate) struct Gain<'a> {
    pub n: usize,
    pub z: &'a [f64],
    pub share: f64,
    ghost long: { length z.now ≡ n },
}

impl Gain<'_> {
    // What an entry becomes, where a is z_i and b is z_j.
    fn entry(&self, x: f64, a: f64, b: f64) -> f64
        ensures { result ≡ x ⊕ a ⊗ b ⊗ self.now.share }
    {
        x + a * b * self.share
    }

    // Whether each entry of row i will be finite. The loop runs to the end of the row whatever it meets, so that the machine can
    // take several entries at a time.
    fn row_finite(&self, hessian: &[f64], i: usize) -> bool
        requires { (i * self.now.n + self.now.n ≤ length hessian.now) × (i < self.now.n) }
        ensures { result ≡ all_finite (gained_row self.now.n hessian.now self.now.z.now self.now.share i) }
    {
        let start = i * self.n;
        let a = self.z[i];
        let mut all = true;
        for j in 0..self.n {
            all &= float::finite(self.entry(hessian[start + j], a, self.z[j]));
        }
        all
    }

    // Whether each entry will be finite.
    pub(crate) fn rows_finite(&self, hessian: &[f64]) -> bool
        requires { Square self.now.n (length hessian.now) }
        ensures { result ≡ all_finite (gained self.now.n hessian.now self.now.z.now self.now.share) }
    {
        for i in 0..self.n {
            if !self.row_finite(hessian, i) {
                return false;
            }
        }
        true
    }

    // Row i takes its new entries.
    fn write_row(&self, hessian: &mut [f64], i: usize)
        requires { (i * self.now.n + self.now.n ≤ length hessian.old) × (i < self.now.n) }
        ensures { Puts hessian.old self.now.n i (gained_row self.now.n hessian.old self.now.z.now self.now.share i) hessian.new }
    {
        let start = i * self.n;
        let a = self.z[i];
        for j in 0..self.n {
            hessian[start + j] = self.entry(hessian[start + j], a, self.z[j]);
        }
    }

    // Every row does.
    pub(crate) fn write_rows(&self, hessian: &mut [f64])
        requires { Square self.now.n (length hessian.old) }
        ensures { hessian.new ≡ gained self.now.n hessian.old self.now.z.now self.now.share }
    {
        for i in 0..self.n {
            self.write_row(hessian, i);
        }
    }
}
