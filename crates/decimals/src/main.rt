// Reads words of 8 bytes from standard input, each the bits of an f64, and writes the decimal text of
// each in a line of its own. Bytes that make no whole word at the end are the line `bad input`.
#![tactic(auto)]

use stream::{Over, Page, Reader};

fn line(page: &mut Page<'_>, bits: u64) {
    let mut text = [0; 24];
    let n = decimal::write(float::float_of(bits), &mut text);
    page.put_text(&text[..n]);
    page.put_line_end();
}

// A line for each word, until none comes. A proved loop has to end, and nothing says that an input
// does: it has more turns than any run takes.
fn lines(input: &mut Reader<'_>, page: &mut Page<'_>) -> Result<(), Over> {
    for _ in 0..u64::MAX {
        line(page, input.next_word()?);
    }
    Ok(())
}

fn main() {
    let mut room = io::large_buffer();
    let mut bytes = io::large_buffer();
    let mut input = Reader::new(&mut room);
    let mut page = Page::new(&mut bytes);
    if lines(&mut input, &mut page) == Err(Over::Short) {
        page.put_text(b"bad input\n");
    }
    page.flush();
}
