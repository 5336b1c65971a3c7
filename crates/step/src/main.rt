// Reads one case from standard input and writes its step, or why there is none.
#![tactic(auto)]

use case::Workspace;
use stream::{Page, STDIN_FILENO};

// No case has more than 33,320 bytes, so a room that is full holds too many, whatever comes after.
fn main() {
    let mut room = io::large_buffer();
    let mut bytes = io::large_buffer();
    let mut page = Page::new(&mut bytes);
    let mut work = Workspace::new();
    let n = io::read_full(STDIN_FILENO, &mut room);
    let said = work.answer(&room[..n]);
    case::lines::put(&mut page, said, &work.step);
    page.flush();
}
