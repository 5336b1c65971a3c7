// The shortest decimal digits that read back as an f64, by Steele and White's method.
ghost use Rattle.std.specs.Prelude.{◌≡◌, ◌+◌, ◌-◌, ◌*◌, ◌/◌, ◌%◌, ◌^◌, ◌<◌, ◌≤◌};
ghost use Rattle.shortest.specs.Whole.{cap};
ghost use Rattle.shortest.specs.Digits.{Is, Parts, raises, lowers, added, digits_of};
ghost use Rattle.shortest.specs.Digits.{ending as Digits·ending, shortest as Digits·shortest};
ghost use Rattle.shortest.specs.Digits.{find as Digits·find, between as Digits·between, quarters as Digits·quarters};

use crate::whole::Whole;
use std::marker::Model;

// The number r / s, and u / s, a quarter of its distance to the next one above. Half of each of its
// two distances reads back as it: two quarters above it and `low` quarters below; the ends do so too
// unless `odd`, its mantissa's last bit, is 1.
#[derive(Drop)]
struct Fraction {
    r: Whole,
    s: Whole,
    u: Whole,
    low: u64,
    odd: u64,
}

impl Model for Fraction {
    ghost Value = { Parts };

    ghost view = { λ a. record { r = a.r; s = a.s; u = a.u; low = a.low; odd = a.odd } };

    ghost invariant = { λ a. (a.low ≤ 2) × (a.odd ≤ 1) × (0 < a.s) × (10 * a.s < cap) × (0 < a.u) };
}

// The digits as a whole number, and how many there are.
#[derive(Clone, Copy)]
struct Digits {
    number: u64,
    count: usize,
}

impl Fraction {
    // The number mantissa times 2^(power - 1075).
    #[tactic(auto, using(crate::proofs::Turns::sizes), unfolding(crate::specs::Whole::cap))]
    fn of(mantissa: u64, power: u64, low: u64) -> Self
        requires { (mantissa < 2 ^ 53) × (1 ≤ power) × (power ≤ 2046) × (low ≤ 2) }
        ensures { result
            ≡ record { r = 2 ^ (power - 1075) * (4 * mantissa); s = 2 ^ (1075 - power) * 4; u = 2 ^ (power - 1075); low = low; odd = mantissa % 2 } }
    {
        let up = power.saturating_sub(1075);
        let mut r = Whole::from(4 * mantissa);
        let mut s = Whole::from(4);
        let mut u = Whole::from(1);
        r.shift(up);
        u.shift(up);
        s.shift(1075u64.saturating_sub(power));
        Fraction {
            r,
            s,
            u,
            low,
            odd: mantissa % 2,
        }
    }

    // Takes s ten times until the upper end is below one, and tells how often.
    #[tactic(auto, using(crate::proofs::Turns::raising))]
    fn raise(&mut self) -> usize
        requires { 100 * (self.old.r + 2 * self.old.u) < cap }
        ensures value { result ≡ raises 400 self.old.odd (self.old.r + 2 * self.old.u) self.old.s }
        ensures after { self.new ≡ record self.old { s = 10 ^ result * self.old.s } }
        ensures below_one { self.new.r + 2 * self.new.u < self.new.s + self.new.odd }
    {
        for k in 0..400 {
            if !self.s.at_most(self.odd, 1, &self.r, 2, &self.u) {
                return k;
            }
            self.s.times(10);
        }
        400
    }

    // Takes r and u ten times until the upper end is not below a tenth, and tells how often.
    #[tactic(auto, using(crate::proofs::Turns::lower_stop, crate::proofs::Turns::never))]
    fn lower(&mut self) -> usize
        requires { self.old.r + 2 * self.old.u < self.old.s + self.old.odd }
        ensures value { result ≡ lowers 400 self.old.odd (self.old.r + 2 * self.old.u) self.old.s }
        ensures after { self.new ≡ record self.old { r = 10 ^ result * self.old.r; u = 10 ^ result * self.old.u } }
        ensures below_one { self.new.r + 2 * self.new.u < self.new.s + self.new.odd }
        ensures near { result ≤ 400 }
    {
        for k in 0..400 {
            if self.s.at_most(self.odd, 10, &self.r, 20, &self.u) {
                return k;
            }
            self.r.times(10);
            self.u.times(10);
        }
        400
    }

    // The whole part of r / s, and leaves the rest in r.
    fn cut(&mut self) -> u64
        requires { self.old.r < 10 * self.old.s }
        ensures value { (result ≡ self.old.r / self.old.s) × (result ≤ 9) }
        ensures after { self.new ≡ record self.old { r = self.old.r % self.old.s } }
    {
        for d in 0..9 {
            if !self.s.at_most(0, 1, &self.r, 0, &self.r) {
                return d;
            }
            self.r.take_away(&self.s);
        }
        9
    }

    // What is to be added to the digits so far, where they are all: 0 as they stand, and 1 one above.
    #[tactic(auto, unfolding(crate::specs::Digits::added, crate::specs::Digits::ending))]
    fn ending(&self) -> Option<u64>
        ensures { result ≡ added (Digits·ending self.now.low self.now.odd self.now.s self.now.r self.now.u) }
    {
        let below = self.r.at_most(self.odd, self.low, &self.u, 0, &self.u);
        let above = self.s.at_most(self.odd, 1, &self.r, 2, &self.u);
        match (below, above) {
            (false, false) => None,
            (false, true) => Some(1),
            (true, false) => Some(0),
            (true, true) => Some(u64::from(self.s.at_most(0, 2, &self.r, 0, &self.r))),
        }
    }

    // The shortest digits that read back, for r / s below one. No f64 needs more than 17.
    #[tactic(auto, using(crate::proofs::Turns::shortest_ends, crate::proofs::Turns::shortest_out))]
    fn shortest(&mut self) -> Digits
        requires { self.old.r + 2 * self.old.u < self.old.s + self.old.odd }
        ensures number { result.number ≡ (Digits·shortest 17 self.old.low self.old.odd self.old.s 0 0 self.old.r self.old.u).number }
        ensures count { result.count ≡ (Digits·shortest 17 self.old.low self.old.odd self.old.s 0 0 self.old.r self.old.u).count }
        ensures few { (1 ≤ result.count) × (result.count ≤ 17) }
    {
        let mut number = 0;
        for n in 0..17 {
            self.r.times(10);
            self.u.times(10);
            number = 10 * number + self.cut();
            if let Some(more) = self.ending() {
                return Digits {
                    number: number + more,
                    count: n + 1,
                };
            }
        }
        Digits { number, count: 17 }
    }

    #[tactic(auto, unfolding(crate::specs::Digits::find))]
    fn find(mut self) -> Found
        requires { 100 * (self.r + 2 * self.u) < cap }
        ensures { Is (Digits·find self.low self.odd self.r self.s self.u) result.number result.count result.raised result.lowered }
    {
        let raised = self.raise();
        let lowered = self.lower();
        let Digits { number, count } = self.shortest();
        Found {
            number,
            count,
            raised,
            lowered,
        }
    }
}

// The digits of a number as a whole number, how many there are, and how often the number was divided by
// ten, or taken ten times, to stand right behind the point.
#[derive(Clone, Copy, Debug, PartialEq, Eq)]
pub struct Found {
    pub number: u64,
    pub count: usize,
    pub raised: usize,
    pub lowered: usize,
}

// How many quarters of the distance above lie between a number and the lower end of what reads back:
// at a power of two the number below is nearer, but for the smallest of them that is normal.
#[tactic(auto, unfolding(crate::specs::Digits::quarters))]
fn quarters(field: u64, fraction: u64) -> u64
    ensures { (result ≡ Digits·quarters field fraction) × (result ≤ 2) }
{
    if fraction == 0 && field > 1 { 1 } else { 2 }
}

// The digits of the finite number above zero whose pattern is `bits`; those of 0 for another pattern.
#[tactic(auto, unfolding(crate::specs::Digits::digits_of))]
pub fn digits_of(bits: u64) -> Found
    ensures { Is (digits_of bits) result.number result.count result.raised result.lowered }
{
    let field = bits / 0x10_0000_0000_0000;
    let fraction = bits % 0x10_0000_0000_0000;
    match field {
        0 => between(fraction, 1, 2),
        1..=2046 => between(
            0x10_0000_0000_0000 + fraction,
            field,
            quarters(field, fraction),
        ),
        _ => between(0, 1, 2),
    }
}

// The digits of mantissa times 2^(power - 1075).
#[tactic(auto, unfolding(crate::specs::Digits::between))]
fn between(mantissa: u64, power: u64, low: u64) -> Found
    requires { (mantissa < 2 ^ 53) × (1 ≤ power) × (power ≤ 2046) × (low ≤ 2) }
    ensures { Is (Digits·between mantissa power low) result.number result.count result.raised result.lowered }
{
    Fraction::of(mantissa, power, low).find()
}
