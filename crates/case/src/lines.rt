// What is written of a case: `step`, its size and passes and a line for each number, or `refused` and
// a number.
ghost use Rattle.std.specs.Prelude.{◌≡◌, take};
ghost use Rattle.stream.specs.Pieces.{Puts};
ghost use Rattle.case.specs.Lines.{number_lines, step_line};
ghost use Rattle.case.specs.Lines as Lines;

use crate::Step;
use stream::Page;
use vectors::refusal::Refusal;

// Puts the lines of an answer on a page; the step stands at the front of `step`.
pub fn put(page: &mut Page<'_>, said: Result<Step, Refusal>, step: &[f64])
    ensures { Puts (Lines.lines said step.now) page.old page.new }
{
    match said {
        Ok(found) => {
            step_line(page, found);
            numbers(page, first(step, found.size));
        }
        Err(r) => page.put_refused(u64::from(r)),
    }
}

fn step_line(page: &mut Page<'_>, found: Step)
    ensures { Puts (step_line found.size found.passes) page.old page.new }
{
    page.put_text(b"step ");
    page.put_whole(found.size as u64);
    page.put_blank();
    page.put_whole(found.passes);
    page.put_line_end();
}

fn numbers(page: &mut Page<'_>, v: &[f64])
    ensures { Puts (number_lines v.now) page.old page.new }
{
    for x in v {
        page.put_number(*x);
        page.put_line_end();
    }
}

// The first n numbers of v, or all that there are.
fn first(v: &[f64], n: usize) -> &[f64]
    ensures { result.now ≡ take n v.now }
{
    v.get(..n).unwrap_or(v)
}
