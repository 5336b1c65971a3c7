// Why a call is refused, and the sizes that every call asks for.
ghost use Rattle.std.specs.Prelude.{◌≡◌, [], ◌∷◌, ◌*◌, eqb};
ghost use Rattle.vectors.specs.Refusal as Table;

// Document 01's table, in its order, and behind it the refusals of later requests.
#[derive(Clone, Copy, Debug, PartialEq, Eq)]
pub enum Refusal {
    Size,
    Setting,
    Turn,
    Entry,
    Radius,
    Pivot,
    Root,
    Range,
    Hidden,
}

impl Refusal {
    // Its number in that table.
    pub fn number(self) -> u64
        ensures { result ≡ Table.number self }
    {
        match self {
            Refusal::Size => 1,
            Refusal::Setting => 2,
            Refusal::Turn => 3,
            Refusal::Entry => 4,
            Refusal::Radius => 5,
            Refusal::Pivot => 6,
            Refusal::Root => 7,
            Refusal::Range => 8,
            Refusal::Hidden => 9,
        }
    }

    // One check of a list: `Refusal::Size.unless(sized)?` goes on where the sizes are right.
    pub fn unless(self, right: bool) -> Result<(), Refusal>
        ensures { result ≡ Table.checked self right }
    {
        if right { Ok(()) } else { Err(self) }
    }
}

impl From<Refusal> for u64 {
    ghost from_gives = { λ r n. n ≡ Table.number r };

    fn from(r: Refusal) -> u64 {
        r.number()
    }
}

// Every test of a list holds. The loop runs to its end whatever it meets: mostly all hold, and the machine need not look at each
// before it goes on.
pub fn all_hold(tests: &[bool]) -> bool
    ensures { result ≡ Table.all_hold tests.now }
{
    let mut all = true;
    for test in tests {
        all &= *test;
    }
    all
}

// n is 1 to 64.
#[tactic(auto, unfolding(crate::specs::Refusal::size))]
pub fn size(n: usize) -> bool
    ensures { result ≡ Table.size n }
{
    1 <= n && n <= 64
}

// n and the lengths of two vectors are right.
pub fn vectors(n: usize, a: usize, b: usize) -> bool
    ensures { result ≡ Table.all_hold (Table.size n ∷ eqb a n ∷ eqb b n ∷ []) }
{
    all_hold(&[size(n), a == n, b == n])
}

// n and the length of a matrix are right.
pub fn matrix(n: usize, h: usize) -> bool
    ensures { result ≡ Table.all_hold (Table.size n ∷ eqb h (n * n) ∷ []) }
{
    size(n) && h == n * n
}

// n and the lengths of a matrix and two vectors are right.
pub fn shaped(n: usize, h: usize, a: usize, b: usize) -> bool
    ensures { result ≡ Table.all_hold (Table.size n ∷ eqb h (n * n) ∷ eqb a n ∷ eqb b n ∷ []) }
{
    size(n) && all_hold(&[h == n * n, a == n, b == n])
}
