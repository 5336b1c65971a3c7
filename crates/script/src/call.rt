// A call: its number, and what it is told. A call that is told an n has it behind its number.
ghost use Rattle.std.specs.Prelude.{◌≡◌, ◌≤◌};
ghost use Rattle.script.specs.Call as Definition;
ghost use Rattle.script.specs.Call.{Decoded};

use crate::{Kind, places};
use codec::Turn;
use offer::state::Phase;

// The lists that come with an answer stand beside it. A change puts a radius, a cost and a phase into the session, a count this count.
#[derive(Clone, Copy)]
pub enum Call {
    Propose(usize),
    Cost(usize, f64),
    Derivatives(usize),
    Change(f64, f64, Phase),
    Count(u64),
}

// How many words are wanted in all, as far as those that are there tell it; 0, so that no more are read, where the first may not stand there.
#[tactic(auto, unfolding(crate::specs::Call::wants))]
pub fn wanted(kind: Kind, n: usize, words: &[u64]) -> usize
    ensures { result ≡ Definition.wants kind n words.now }
{
    if words.is_empty() {
        return 1;
    }
    if 64 < n {
        return 0;
    }
    match places::word(words, 0) {
        1 => 2,
        2 => cost_words(kind, n),
        3 => derivative_words(kind, n),
        4 => 6,
        5 => 2,
        _ => 0,
    }
}

// 2 n F, for SR1TrustRegion 2 n F G
fn cost_words(kind: Kind, n: usize) -> usize
    requires { n ≤ 64 }
    ensures { result ≡ Definition.cost_words kind n }
{
    match kind {
        Kind::TrustRegion => 3,
        Kind::Sr1 => 3 + n,
    }
}

// 3 n g H, for TrustRegion alone
fn derivative_words(kind: Kind, n: usize) -> usize
    requires { n ≤ 64 }
    ensures { result ≡ Definition.derivative_words kind n }
{
    match kind {
        Kind::TrustRegion => 2 + n + n * n,
        Kind::Sr1 => 0,
    }
}

// The gradient and the Hessian that come with an answer are left in the lists; the others leave them as they are. Words that make no call
// are none.
pub fn decode(
    kind: Kind,
    n: usize,
    words: &[u64],
    new_gradient: &mut [f64],
    new_hessian: &mut [f64],
) -> Option<Call>
    ensures { Decoded kind n words.now result new_gradient.old new_gradient.new new_hessian.old new_hessian.new }
{
    if wanted(kind, n, words) != words.len() {
        return None;
    }
    let told_n = places::word(words, 1) as usize;
    match places::word(words, 0) {
        1 => Some(Call::Propose(told_n)),
        2 => {
            answer(kind, words, new_gradient);
            Some(Call::Cost(told_n, places::number(words, 2)))
        }
        3 => {
            places::fill(places::behind(words, 2), new_gradient);
            places::fill(places::behind(words, 2 + n), new_hessian);
            Some(Call::Derivatives(told_n))
        }
        4 => change(kind, words),
        5 => Some(Call::Count(places::word(words, 1))),
        _ => None,
    }
}

// The gradient that comes with a cost.
fn answer(kind: Kind, words: &[u64], new_gradient: &mut [f64])
    ensures { new_gradient.new ≡ Definition.with_cost kind words.now new_gradient.old }
{
    if kind == Kind::Sr1 {
        places::fill(places::behind(words, 3), new_gradient);
    }
}

// 4 radius cost phase a b
fn change(kind: Kind, words: &[u64]) -> Option<Call>
    ensures { result ≡ Definition.changes kind words.now }
{
    let turn = Turn {
        number: places::word(words, 3),
        promise: places::number(words, 4),
        norm: places::number(words, 5),
    };
    if last_phase(kind) < turn.number {
        return None;
    }
    let radius = places::number(words, 1);
    let cost = places::number(words, 2);
    Some(Call::Change(radius, cost, Phase::from(turn)))
}

// SR1TrustRegion awaits no derivatives.
fn last_phase(kind: Kind) -> u64
    ensures { result ≡ Definition.last_phase kind }
{
    match kind {
        Kind::TrustRegion => 2,
        Kind::Sr1 => 1,
    }
}
