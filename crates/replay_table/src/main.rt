// Runs the script on standard input, as `replay` does, and writes a table for people.
#![tactic(auto)]

use fit::{Manner, Reading};
use stream::Page;

fn main() {
    let mut room = io::large_buffer();
    let mut bytes = io::large_buffer();
    let mut script = Reading::whole_input(&mut room);
    let mut page = Page::new(&mut bytes);
    fit::run(Manner::Table, &mut script, &mut page);
    page.flush();
}
