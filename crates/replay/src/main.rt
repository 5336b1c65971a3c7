// Runs the script on standard input: a session's start and its calls, a line or more for each.
#![tactic(auto)]

use fit::{Manner, Reading};
use stream::Page;

fn main() {
    let mut room = io::large_buffer();
    let mut bytes = io::large_buffer();
    let mut script = Reading::whole_input(&mut room);
    let mut page = Page::new(&mut bytes);
    fit::run(Manner::Lines, &mut script, &mut page);
    page.flush();
}
