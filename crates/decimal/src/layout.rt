// The layout of a number's digits, part by part. Each function puts its part behind what is there.
ghost use Rattle.std.specs.Prelude.{◌≡◌, ℕ, List, [], ◌∷◌, ◌++◌, ◌+◌, ◌/◌, ◌^◌, ◌<◌, ◌≤◌, length, take};
ghost use Rattle.decimal.specs.Text.{digits, sign, behind, pointed, exponent, scientific, positional, laid, unsigned};
ghost use Rattle.decimal.specs.Text.{width as Text·width, text as Text·text};

use shortest::Found;
use std::marker::Model;

// The text so far. No number's text is longer than 24 bytes.
#[derive(Drop)]
pub(crate) struct Text {
    bytes: [u8; 24],
    len: usize,
}

impl Model for Text {
    ghost Value = { List ℕ };

    ghost view = { λ a. take a.len a.bytes };

    ghost invariant = { λ a. a.len ≤ 24 };
}

impl Text {
    // The text of the number with these bits.
    #[tactic(auto, using(crate::proofs::Short::lengths), unfolding(crate::specs::Text::text))]
    pub(crate) fn of(bits: u64) -> Self
        ensures { result ≡ Text·text bits }
    {
        let mut text = Text {
            bytes: [0; 24],
            len: 0,
        };
        let size = bits % 0x8000_0000_0000_0000;
        if size > 0x7ff0_0000_0000_0000 {
            text.put(b"nan");
        } else {
            text.put_sign(bits >= 0x8000_0000_0000_0000);
            text.put_unsigned(size);
        }
        text
    }

    pub(crate) fn as_slice(&self) -> &[u8]
        ensures { result.now ≡ self.now }
    {
        &self.bytes[..self.len]
    }

    fn push(&mut self, byte: u8)
        requires { length self.old < 24 }
        ensures { self.new ≡ self.old ++ (byte ∷ []) }
    {
        self.bytes[self.len] = byte;
        self.len += 1;
    }

    fn put(&mut self, part: &[u8])
        requires { length self.old + length part.now ≤ 24 }
        ensures { self.new ≡ self.old ++ part.now }
    {
        for byte in part {
            self.push(*byte);
        }
    }

    #[tactic(auto, unfolding(crate::specs::Text::sign))]
    fn put_sign(&mut self, minus: bool)
        requires { length self.old + 1 ≤ 24 }
        ensures { self.new ≡ self.old ++ sign minus }
    {
        if minus {
            self.push(b'-');
        }
    }

    // The `count` lowest digits of a number, the highest first.
    #[tactic(auto, using(crate::proofs::Short::lengths), unfolding(crate::specs::Text::digits))]
    fn put_digits(&mut self, count: usize, number: u64)
        requires { length self.old + count ≤ 24 }
        ensures { self.new ≡ self.old ++ digits count number }
    {
        if count > 0 {
            self.put_digits(count - 1, number / 10);
            self.push(b'0' + (number % 10) as u8);
        }
    }

    // A point and the `places` lowest digits of a number; nothing, where there are to be none.
    #[tactic(auto, unfolding(crate::specs::Text::behind))]
    fn put_behind(&mut self, number: u64, places: usize)
        requires { length self.old + places + 1 ≤ 24 }
        ensures { self.new ≡ self.old ++ behind number places }
    {
        if places > 0 {
            self.push(b'.');
            self.put_digits(places, number);
        }
    }

    // A number with `whole` digits before a point and its `places` lowest digits behind it.
    #[tactic(auto, using(crate::proofs::Short::lengths), unfolding(crate::specs::Text::pointed))]
    fn put_pointed(&mut self, number: u64, whole: usize, places: usize)
        requires { length self.old + whole + places + 1 ≤ 24 }
        ensures { self.new ≡ self.old ++ pointed number whole places }
    {
        self.put_digits(whole, without(number, places));
        self.put_behind(number, places);
    }

    #[tactic(auto, using(crate::proofs::Short::lengths), unfolding(crate::specs::Text::exponent))]
    fn put_exponent(&mut self, minus: bool, e: usize)
        requires { length self.old + 5 ≤ 24 }
        ensures { self.new ≡ self.old ++ exponent minus e }
    {
        self.push(b'e');
        self.put_sign(minus);
        self.put_digits(width(e), e as u64);
    }

    // One digit before the point, and how many places it is to move.
    #[tactic(auto, using(crate::proofs::Short::lengths), unfolding(crate::specs::Text::scientific))]
    fn put_scientific(&mut self, d: Found, minus: bool, e: usize)
        requires { (1 ≤ d.count) × (length self.old + d.count + 6 ≤ 24) }
        ensures { self.new ≡ self.old ++ scientific d.number d.count minus e }
    {
        self.put_pointed(d.number, 1, d.count - 1);
        self.put_exponent(minus, e);
    }

    // The digits with the point where it belongs.
    #[tactic(auto, using(crate::proofs::Short::lengths), unfolding(crate::specs::Text::positional))]
    fn put_positional(&mut self, d: Found)
        requires { (d.count ≤ 17) × (d.raised ≤ 16) × (d.lowered ≤ 4) × (length self.old ≤ 1) }
        ensures { self.new ≡ self.old ++ positional d.number d.count d.raised d.lowered }
    {
        if d.raised == 0 {
            self.put_pointed(d.number, 1, d.count + d.lowered);
        } else if d.count <= d.raised {
            self.put_digits(d.count, d.number);
            self.put_digits(d.raised - d.count, 0);
        } else {
            self.put_pointed(d.number, d.raised, d.count - d.raised);
        }
    }

    // Scientific where the number is 1e16 or more, or below 1e-5.
    #[tactic(auto, unfolding(crate::specs::Text::laid))]
    fn put_laid(&mut self, d: Found)
        requires { (1 ≤ d.count) × (d.count ≤ 17) × (d.lowered ≤ 400) × (length self.old ≤ 1) }
        ensures { self.new ≡ self.old ++ laid d.number d.count d.raised d.lowered }
    {
        if d.raised > 16 {
            self.put_scientific(d, false, d.raised - 1);
        } else if d.lowered > 4 {
            self.put_scientific(d, true, d.lowered + 1);
        } else {
            self.put_positional(d);
        }
    }

    // The text of a pattern without its sign.
    #[tactic(auto, unfolding(crate::specs::Text::unsigned))]
    fn put_unsigned(&mut self, size: u64)
        requires { length self.old ≤ 1 }
        ensures { self.new ≡ self.old ++ unsigned size }
    {
        match size {
            0x7ff0_0000_0000_0000 => self.put(b"inf"),
            0 => self.put(b"0"),
            _ => self.put_laid(shortest::digits_of(size)),
        }
    }
}

// A number without its `places` lowest digits.
#[tactic(auto, using(crate::proofs::Puts::without_more))]
fn without(number: u64, places: usize) -> u64
    ensures { result ≡ number / 10 ^ places }
{
    let mut rest = number;
    for _ in 0..places {
        rest /= 10;
    }
    rest
}

// How many digits an exponent has.
#[tactic(auto, unfolding(crate::specs::Text::width))]
fn width(e: usize) -> usize
    ensures { result ≡ Text·width e }
{
    match e {
        0..=9 => 1,
        10..=99 => 2,
        _ => 3,
    }
}
