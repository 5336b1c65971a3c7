// Runs a list of calls of the leaf functions, from standard input, and writes a line for each. A call
// is its number and its arguments, in words of 8 bytes; a line is `is` and the answer, or `refused` and
// a number. Input that ends inside a call, or has a number that no call has, ends the run with the line
// `bad input`.
#![tactic(auto)]

mod calls;
mod lines;
mod lists;
mod numbers;

use stream::{Over, Page, Reader};

// One call, by its number.
fn call(number: u64, input: &mut Reader<'_>, page: &mut Page<'_>) -> Option<()> {
    match number {
        6 => calls::product(input, page),
        7 => calls::inverse(input, page),
        8 => calls::row(input, page),
        _ => {
            lines::answer(page, numbers::call(number, input)?);
            Some(())
        }
    }
}

// Call after call, up to the end; none where the input is bad. A proved loop has to end, and nothing says
// that an input does: the calls are counted up to a number that no run reaches.
fn run(input: &mut Reader<'_>, page: &mut Page<'_>) -> Option<()> {
    for _ in 0..u64::MAX {
        match input.next_word() {
            Ok(number) => call(number, input, page)?,
            Err(Over::End) => return Some(()),
            Err(Over::Short) => return None,
        }
    }
    Some(())
}

fn main() {
    let mut room = io::large_buffer();
    let mut bytes = io::large_buffer();
    let mut input = Reader::new(&mut room);
    let mut page = Page::new(&mut bytes);
    if run(&mut input, &mut page).is_none() {
        page.put_text(b"bad input\n");
    }
    page.flush();
}
