// A session's start: kind, n, kernel, the settings' numbers, limit, further settings, cost, point, gradient, Hessian. Kinds 1 and 3 are
// TrustRegion, 2 and 4 SR1TrustRegion. 3 and 4 alone have further settings: a word tells how many, and those that are missing have their defaults.
ghost use Rattle.std.specs.Prelude.{◌≡◌, ◌≤◌};
ghost use Rattle.script.specs.Start as Definition;
ghost use Rattle.script.specs.Start.{Lists, Decoded};
ghost use Rattle.script.specs.Place.{SamePlace};

use crate::{Kind, Place, places};
use codec::Wholes;

// What a start begins a session with: settings and a cost.
#[derive(Clone, Copy)]
pub enum Start {
    TrustRegion(trustregion::settings::Settings, f64),
    Sr1(sr1::settings::Settings, f64),
}

pub fn kind(words: &[u64]) -> Kind
    ensures { result ≡ Definition.kind_of words.now }
{
    match places::word(words, 0) {
        1 | 3 => Kind::TrustRegion,
        _ => Kind::Sr1,
    }
}

pub fn size(words: &[u64]) -> usize
    ensures { result ≡ Definition.size_of words.now }
{
    places::word(words, 1) as usize
}

// Whether there are further settings, and a count at the end.
pub fn tells_more(words: &[u64]) -> bool
    ensures { result ≡ Definition.tells_more words.now }
{
    2 < places::word(words, 0)
}

// How many words are wanted in all, as far as those that are there tell it; 0, so that no more are read, where one of them may not stand
// there.
#[tactic(auto, unfolding(crate::specs::Start::wants))]
pub fn wanted(words: &[u64]) -> usize
    ensures { result ≡ Definition.wants words.now }
{
    if words.len() < 2 {
        return 2;
    }
    if !begins(words) {
        return 0;
    }
    let head = head(words);
    if words.len() < head {
        return head;
    }
    let more = further(words);
    if known(words) < more {
        return 0;
    }
    in_all(head, more, size(words))
}

fn in_all(head: usize, more: u64, n: usize) -> usize
    requires { (head ≤ 10) × (more ≤ 3) × (n ≤ 64) }
    ensures { result ≡ Definition.whole head more n }
{
    head + more as usize + 1 + 2 * n + n * n
}

// Whether the first two words may stand there.
#[tactic(auto, unfolding(crate::specs::Start::begins))]
fn begins(words: &[u64]) -> bool
    ensures { result ≡ Definition.begins words.now }
{
    let number = places::word(words, 0);
    1 <= number && number <= 4 && vectors::refusal::size(size(words))
}

// Where the limit stands: behind kind, n, kernel and the numbers.
fn limit_at(words: &[u64]) -> usize
    ensures { (result ≡ Definition.limit_at words.now) × (result ≤ 8) }
{
    match kind(words) {
        Kind::TrustRegion => 7,
        Kind::Sr1 => 8,
    }
}

// How many words there are before the further settings.
fn head(words: &[u64]) -> usize
    ensures { (result ≡ Definition.head words.now) × (result ≤ 10) }
{
    let limit = limit_at(words);
    if tells_more(words) {
        limit + 2
    } else {
        limit + 1
    }
}

// How many further settings are told.
fn further(words: &[u64]) -> u64
    ensures { result ≡ Definition.further words.now }
{
    if tells_more(words) {
        places::word(words, limit_at(words) + 1)
    } else {
        0
    }
}

// How many the kind knows.
fn known(words: &[u64]) -> u64
    ensures { (result ≡ Definition.known words.now) × (result ≤ 3) }
{
    match kind(words) {
        Kind::TrustRegion => 2,
        Kind::Sr1 => 3,
    }
}

// The further setting of a place, or what stands for it where it is not told.
fn setting(words: &[u64], place: usize, missing: u64) -> u64
    requires { place ≤ 2 }
    ensures { result ≡ Definition.setting words.now place missing }
{
    if (place as u64) < further(words) {
        places::word(words, head(words) + place)
    } else {
        missing
    }
}

#[tactic(auto, unfolding(crate::specs::Start::wholes))]
fn wholes(words: &[u64]) -> Wholes
    ensures { result ≡ Definition.wholes words.now }
{
    let told = Wholes::by_default(places::word(words, 2), places::word(words, limit_at(words)));
    Wholes {
        allowance: setting(words, 0, told.allowance),
        dogleg: setting(words, 1, told.dogleg),
        edition: setting(words, 2, told.edition),
        ..told
    }
}

// Epsilon is the last number.
#[tactic(auto, unfolding(crate::specs::Start::trust_region))]
fn trust_region(words: &[u64]) -> trustregion::settings::Settings
    ensures { result ≡ Definition.trust_region words.now }
{
    let numbers = [
        places::number(words, 3),
        places::number(words, 4),
        places::number(words, 5),
    ];
    wholes(words).trust_region(places::number(words, 6), &numbers)
}

#[tactic(auto, unfolding(crate::specs::Start::sr1_settings))]
fn sr1_settings(words: &[u64]) -> sr1::settings::Settings
    ensures { result ≡ Definition.sr1_settings words.now }
{
    let numbers = [
        places::number(words, 3),
        places::number(words, 4),
        places::number(words, 5),
        places::number(words, 6),
    ];
    wholes(words).sr1(places::number(words, 7), &numbers)
}

// Words that make a start: at most three further settings are told, and n is at most 64.
#[derive(Clone, Copy)]
struct Whole<'a> {
    words: &'a [u64],
    ghost few: { Definition.further words.now ≤ 3 },
    ghost small: { Definition.size_of words.now ≤ 64 },
}

impl Whole<'_> {
    // Where the cost stands, behind the further settings.
    fn cost_at(&self) -> usize
        ensures { (result ≡ Definition.cost_at self.now.words.now) × (result ≤ 13) }
    {
        head(self.words) + further(self.words) as usize
    }

    // Point, gradient and Hessian stand at the end, in this order; each list is filled as far as it goes.
    fn fill(&self, place: &mut Place<'_>)
        ensures same { SamePlace place.old place.new }
        ensures fills { Lists self.now.words.now place.old.point.now place.new.point.now place.old.gradient.now place.new.gradient.now place.old.hessian.now place.new.hessian.now }
    {
        let n = size(self.words);
        let at = self.cost_at() + 1;
        places::fill(places::behind(self.words, at), place.point);
        places::fill(places::behind(self.words, at + n), place.gradient);
        places::fill(places::behind(self.words, at + 2 * n), place.hessian);
    }

    // What stands before the lists.
    fn opening(&self) -> Start
        ensures { result ≡ Definition.opening self.now.words.now (Definition.kind_of self.now.words.now) }
    {
        let cost = places::number(self.words, self.cost_at());
        match kind(self.words) {
            Kind::TrustRegion => Start::TrustRegion(trust_region(self.words), cost),
            Kind::Sr1 => Start::Sr1(sr1_settings(self.words), cost),
        }
    }
}

// The start and its lists; none where the words make no start, and then the lists stay.
pub fn decode(words: &[u64], place: &mut Place<'_>) -> Option<Start>
    ensures same { SamePlace place.old place.new }
    ensures decoded { Decoded words.now result place.old.point.now place.new.point.now place.old.gradient.now place.new.gradient.now place.old.hessian.now place.new.hessian.now }
{
    if wanted(words) != words.len() {
        return None;
    }
    let whole = Whole { words };
    whole.fill(place);
    Some(whole.opening())
}
