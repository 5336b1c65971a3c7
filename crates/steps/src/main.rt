// Answers many cases in one run. Standard input has for each case a word with its length in bytes, and
// its bytes; the lines of each are written one after another. A length that runs past the end, or
// bytes that make no word, end the run with the line `bad input`.
#![tactic(auto)]

ghost use Rattle.std.specs.Prelude.{◌≤◌};

use case::Workspace;
use stream::{Over, Page, STDIN_FILENO};
use vectors::refusal::Refusal;

fn next_length() -> Result<u64, Over> {
    let mut bytes = [0; 8];
    match io::read_full(STDIN_FILENO, &mut bytes) {
        0 => Err(Over::End),
        8 => Ok(u64::from_le_bytes(bytes)),
        _ => Err(Over::Short),
    }
}

// Fills a room with what comes.
fn fill(room: &mut [u8]) -> Result<(), Over> {
    if io::read_full(STDIN_FILENO, room) < room.len() {
        return Err(Over::Short);
    }
    Ok(())
}

// Reads past so many bytes: as many of what is left as the room takes, until none is.
fn skip(room: &mut [u8], count: u64) -> Result<(), Over> {
    let mut left = count;
    while left > 0 {
        let part = most(room.len(), left);
        if part == 0 {
            return Err(Over::Short);
        }
        fill(&mut room[..part])?;
        left -= part as u64;
    }
    Ok(())
}

// The smaller of a length and a count.
fn most(len: usize, count: u64) -> usize
    ensures { (result ≤ len) × (result ≤ count) }
{
    if count < len as u64 {
        count as usize
    } else {
        len
    }
}

// The next case, at the front of the room; none of one that is longer than the room, and so than any
// that fits its n.
fn next_case(room: &mut [u8]) -> Result<Option<&[u8]>, Over> {
    let count = next_length()?;
    if (room.len() as u64) < count {
        skip(room, count)?;
        return Ok(None);
    }
    let case = &mut room[..count as usize];
    fill(case)?;
    Ok(Some(case))
}

// Answers case after case. A proved loop has to end, and nothing says that an input does: the cases are
// counted up to a number that no run reaches.
fn run(room: &mut [u8], page: &mut Page<'_>) -> Result<(), Over> {
    let mut work = Workspace::new();
    for _ in 0..u64::MAX {
        let said = match next_case(room)? {
            Some(bytes) => work.answer(bytes),
            None => Err(Refusal::Size),
        };
        case::lines::put(page, said, &work.step);
    }
    Ok(())
}

fn main() {
    let mut room = io::large_buffer();
    let mut bytes = io::large_buffer();
    let mut page = Page::new(&mut bytes);
    if run(&mut room, &mut page) == Err(Over::Short) {
        page.put_text(b"bad input\n");
    }
    page.flush();
}
