// The arguments of a call, read one after another: words, lists of numbers, and what is lent. None where the input ends in
// one, or one is longer than its room.
use stream::Reader;

pub fn word(input: &mut Reader<'_>) -> Option<u64> {
    input.next_word().ok()
}

pub fn size(input: &mut Reader<'_>) -> Option<usize> {
    word(input).map(|n| n as usize)
}

// A length and a list.
pub fn list<'a>(input: &mut Reader<'_>, room: &'a mut [f64]) -> Option<&'a [f64]> {
    let count = size(input)?;
    input.numbers(room, count)?;
    room.get(..count)
}

// The length of what is lent.
pub fn lent<'a>(input: &mut Reader<'_>, room: &'a mut [f64]) -> Option<&'a mut [f64]> {
    let count = size(input)?;
    room.get_mut(..count)
}
