// Runs many scripts. Standard input has for each a word with its length in words, and its words; the
// lines of each are written one after another. What is there of a script that runs past the end is run;
// bytes in the place of a length that make no word end the run with the line `bad input`.
#![tactic(auto)]

use fit::{Manner, Reading};
use stream::{Over, Page, Reader};

// Script after script on one input, until no length comes. A proved loop has to end, and nothing says
// that an input does: it has more turns than any run takes.
fn scripts(script: &mut Reading<'_>, page: &mut Page<'_>) -> Result<(), Over> {
    for _ in 0..u64::MAX {
        script.left = script.input.next_word()?;
        fit::run(Manner::Lines, script, page);
    }
    Ok(())
}

fn main() {
    let mut room = io::large_buffer();
    let mut bytes = io::large_buffer();
    let mut script = Reading::of(Reader::new(&mut room), 0);
    let mut page = Page::new(&mut bytes);
    if scripts(&mut script, &mut page) == Err(Over::Short) {
        page.put_text(b"bad input\n");
    }
    page.flush();
}
