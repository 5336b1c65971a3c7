// Words at their places. One that is missing is 0; nothing is made of it, as the words of a start or a call are all there.
ghost use Rattle.std.specs.Prelude.{◌≡◌, length, drop};
ghost use Rattle.script.specs.Places as Places;
ghost use Rattle.script.specs.Places.{numbers};

pub(crate) fn word(words: &[u64], i: usize) -> u64
    ensures { result ≡ Places.word words.now i }
{
    words.get(i).copied().unwrap_or(0)
}

// The same as a number.
pub(crate) fn number(words: &[u64], i: usize) -> f64
    ensures { result ≡ Places.number words.now i }
{
    float::float_of(word(words, i))
}

// What stands behind the first `count` words.
pub(crate) fn behind(words: &[u64], count: usize) -> &[u64]
    ensures { result.now ≡ drop count words.now }
{
    words.get(count..).unwrap_or(&[])
}

// Fills a list with the first words, as numbers.
pub(crate) fn fill(words: &[u64], out: &mut [f64])
    ensures { out.new ≡ numbers words.now (length out.old) }
{
    for (i, x) in out.iter_mut().enumerate() {
        *x = number(words, i);
    }
}
