// What happened, as lines of words: numbers by their 16 hexadecimal digits, whole numbers in decimal.
ghost use Rattle.std.specs.Prelude.{◌≡◌};
ghost use Rattle.stream.specs.Pieces.{Puts};
ghost use Rattle.report.specs.Lines.{proposed_lines, judged_line, phase_line, state_lines, list_lines, count_line, end_lines};
ghost use Rattle.report.specs.Lines as Lines;

use event::Event;
use offer::state::{Phase, State};
use stream::Page;

// The lists are those that the session was lent, as they are afterwards. Of a change nothing is written.
pub fn put(
    page: &mut Page<'_>,
    event: Event,
    tells_more: bool,
    point: &[f64],
    gradient: &[f64],
    hessian: &[f64],
    step: &[f64],
    trial: &[f64],
)
    ensures { Puts (Lines.lines event tells_more point.now gradient.now hessian.now step.now trial.now) page.old page.new }
{
    match event {
        Event::Started(_) => page.put_text(b"start\n"),
        Event::NotStarted(r) => page.put_refused(r.number()),
        Event::Refused(r) => page.put_refused(r.number()),
        Event::Done => page.put_text(b"done\n"),
        Event::Proposed(passes) => proposed(page, passes, step, trial),
        Event::Judged {
            accepted,
            ratio,
            radius,
            ..
        } => judged(page, accepted, ratio, radius),
        Event::Taken => page.put_text(b"taken\n"),
        Event::Changed => {}
        Event::Ended(state) => ended(page, state, tells_more, point, gradient, hessian),
        Event::Bad => page.put_text(b"bad input\n"),
    }
}

fn proposed(page: &mut Page<'_>, passes: u64, step: &[f64], trial: &[f64])
    ensures { Puts (proposed_lines passes step.now trial.now) page.old page.new }
{
    page.put_text(b"proposed ");
    page.put_whole(passes);
    page.put_list(b"\nstep", step);
    page.put_list(b"\ntrial", trial);
    page.put_line_end();
}

fn judged(page: &mut Page<'_>, accepted: bool, ratio: f64, radius: f64)
    ensures { Puts (judged_line accepted ratio radius) page.old page.new }
{
    page.put_named(verdict(accepted), ratio);
    page.put_named(b" radius ", radius);
    page.put_line_end();
}

fn verdict(accepted: bool) -> &'static [u8]
    ensures { result.now ≡ Lines.verdict accepted }
{
    if accepted { b"accepted " } else { b"rejected " }
}

// Where the session stands.
fn ended(
    page: &mut Page<'_>,
    state: State,
    tells_more: bool,
    point: &[f64],
    gradient: &[f64],
    hessian: &[f64],
)
    ensures { Puts (end_lines state tells_more point.now gradient.now hessian.now) page.old page.new }
{
    standing(page, state);
    lists(page, point, gradient, hessian);
    page.put_line_end();
    counted(page, tells_more, state.count);
}

fn standing(page: &mut Page<'_>, state: State)
    ensures { Puts (state_lines state) page.old page.new }
{
    phase(page, state.phase);
    page.put_named(b"\nradius ", state.radius);
    page.put_named(b"\ncost ", state.cost);
}

fn phase(page: &mut Page<'_>, phase: Phase)
    ensures { Puts (phase_line phase) page.old page.new }
{
    match phase {
        Phase::Ready => page.put_text(b"end ready"),
        Phase::AwaitingCost(promise, norm) => {
            page.put_named(b"end cost ", promise);
            page.put_named(b" ", norm);
        }
        Phase::AwaitingDerivatives => page.put_text(b"end derivatives"),
    }
}

fn lists(page: &mut Page<'_>, point: &[f64], gradient: &[f64], hessian: &[f64])
    ensures { Puts (list_lines point.now gradient.now hessian.now) page.old page.new }
{
    page.put_list(b"\npoint", point);
    page.put_list(b"\ngradient", gradient);
    page.put_list(b"\nhessian", hessian);
}

// The count of hidden trials in a row, where the end tells it.
fn counted(page: &mut Page<'_>, tells_more: bool, count: u64)
    ensures { Puts (count_line tells_more count) page.old page.new }
{
    if tells_more {
        page.put_text(b"count ");
        page.put_whole(count);
        page.put_line_end();
    }
}
