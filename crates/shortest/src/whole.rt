// Whole numbers of 36 limbs, the lowest first: room for 2^1152, which the widest f64 needs.
ghost use Rattle.std.specs.Prelude.{◌≡◌, ℕ, ◌+◌, ◌*◌, ◌^◌, ◌<◌, ◌≤◌, leb};
ghost use Rattle.shortest.specs.Whole.{value, cap};

use std::marker::Model;

#[derive(Drop)]
pub(crate) struct Whole {
    limbs: [u32; 36],
}

// Clauses see the number.
impl Model for Whole {
    ghost Value = { ℕ };

    ghost view = { λ a. value a.limbs };
}

impl From<u64> for Whole {
    ghost from_gives = { λ number a. a ≡ number };

    #[tactic(auto, unfolding(crate::specs::Whole::value))]
    fn from(number: u64) -> Self {
        let mut limbs = [0u32; 36];
        limbs[0] = (number % 0x1_0000_0000) as u32;
        limbs[1] = (number / 0x1_0000_0000) as u32;
        Whole { limbs }
    }
}

impl Whole {
    // Multiplies by k.
    pub(crate) fn times(&mut self, k: u64)
        requires { (k ≤ 65536) × (k * self.old < cap) }
        ensures { self.new ≡ k * self.old }
    {
        let mut carry = 0;
        for limb in self.limbs.iter_mut() {
            let x = k * u64::from(*limb) + carry;
            *limb = (x % 0x1_0000_0000) as u32;
            carry = x / 0x1_0000_0000;
        }
    }

    // Takes b away.
    pub(crate) fn take_away(&mut self, b: &Whole)
        requires { b.now ≤ self.old }
        ensures { self.new + b.now ≡ self.old }
    {
        let mut owed = 0;
        for (i, limb) in self.limbs.iter_mut().enumerate() {
            let x = u64::from(*limb) + 0x1_0000_0000 - u64::from(b.limbs[i]) - owed;
            *limb = (x % 0x1_0000_0000) as u32;
            owed = 1 - x / 0x1_0000_0000;
        }
    }

    // Whether this number and o are at most p times b and q times c.
    pub(crate) fn at_most(&self, o: u64, p: u64, b: &Whole, q: u64, c: &Whole) -> bool
        requires { (o ≤ 1) × (p ≤ 65536) × (q ≤ 65536) }
        ensures { result ≡ leb (self.now + o) (p * b.now + q * c.now) }
    {
        let mut owed = o;
        let mut carry = 0;
        for (i, limb) in self.limbs.iter().enumerate() {
            let x = p * u64::from(b.limbs[i]) + q * u64::from(c.limbs[i]) + carry;
            // below 2^32 exactly where this limb, with what is owed, is above the other side's
            let y = x % 0x1_0000_0000 + 0x1_0000_0000 - u64::from(*limb) - owed;
            owed = 1 - y / 0x1_0000_0000;
            carry = x / 0x1_0000_0000;
        }
        owed <= carry
    }

    // Multiplies by k as often as `count` says.
    fn repeat(&mut self, k: u64, count: u64)
        requires { (0 < k) × (k ≤ 65536) × (k ^ count * self.old < cap) }
        ensures { self.new ≡ k ^ count * self.old }
    {
        for _ in 0..count {
            self.times(k);
        }
    }

    // Multiplies by 2^count.
    pub(crate) fn shift(&mut self, count: u64)
        requires { 2 ^ count * self.old < cap }
        ensures { self.new ≡ 2 ^ count * self.old }
    {
        self.repeat(65536, count / 16);
        self.repeat(2, count % 16);
    }
}
