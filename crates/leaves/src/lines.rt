// What is written of a call.
ghost use Rattle.stream.specs.Pieces.{Puts};
ghost use Rattle.leaves.specs.Lines.{answer_line, outcome_line};

use stream::Page;
use vectors::refusal::Refusal;

// `is` and a number, or why there is none.
pub fn answer(page: &mut Page<'_>, found: Result<f64, Refusal>)
    ensures { Puts (answer_line found) page.old page.new }
{
    match found {
        Ok(x) => {
            page.put_named(b"is ", x);
            page.put_line_end();
        }
        Err(r) => page.put_refused(u64::from(r)),
    }
}

// The same of what a call wrote to `out`.
pub fn outcome(page: &mut Page<'_>, found: Result<(), Refusal>, out: &[f64])
    ensures { Puts (outcome_line found out.now) page.old page.new }
{
    match found {
        Ok(()) => {
            page.put_list(b"is", out);
            page.put_line_end();
        }
        Err(r) => page.put_refused(u64::from(r)),
    }
}
