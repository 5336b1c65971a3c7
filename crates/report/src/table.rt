// What happened, for people: a row for each trial that was answered, its numbers in decimal, the
// shortest that read back as the same f64. `trials` were answered before.
ghost use Rattle.std.specs.Prelude.{◌≡◌, [], ◌∷◌};
ghost use Rattle.stream.specs.Pieces.{Puts};
ghost use Rattle.report.specs.Table as Table;

use event::Event;
use offer::state::{Phase, State};
use stream::Page;
use vectors::refusal::Refusal;

// Of a proposal and of new derivatives nothing is told.
pub fn put(page: &mut Page<'_>, trials: u64, event: Event, point: &[f64])
    ensures { Puts (Table.rows trials event point.now) page.old page.new }
{
    match event {
        Event::Started(state) => started(page, state),
        Event::NotStarted(r) => refused(page, b"The start is refused (", r),
        Event::Refused(r) => refused(page, b"       a call is refused (", r),
        Event::Done => page.put_text(b"       the gradient is below the tolerance: done\n"),
        Event::Proposed(_) => {}
        Event::Judged {
            accepted,
            cost,
            ratio,
            radius,
        } => {
            trial(page, trials, cost, ratio);
            verdict(page, accepted, cost, radius);
        }
        Event::Taken => {}
        Event::Changed => page.put_text(b"       the session is changed by hand\n"),
        Event::Ended(state) => {
            end(page, state);
            numbers(page, point);
        }
        Event::Bad => page.put_text(
            b"The input is bad: it ends inside a call, or a word of it is none that may stand there.\n",
        ),
    }
}

fn started(page: &mut Page<'_>, state: State)
    ensures { Puts (Table.started state) page.old page.new }
{
    kept(page, b"Start at cost ", state.cost, state.radius);
    page.put_text(
        b".\n\ntrial  cost                    ratio                   verdict   radius\n",
    );
}

// The cost and the radius, behind a text.
fn kept(page: &mut Page<'_>, text: &[u8], cost: f64, radius: f64)
    ensures { Puts (Table.kept text.now cost radius) page.old page.new }
{
    number(page, text, cost);
    number(page, b", radius ", radius);
}

fn trial(page: &mut Page<'_>, trials: u64, cost: f64, ratio: f64)
    ensures { Puts (Table.columns (Table.next trials) cost ratio) page.old page.new }
{
    numbered(page, trials.wrapping_add(1));
    column(page, cost);
    column(page, ratio);
}

// The verdict and the radius after it. Where a rejected trial's cost was a NaN, a marker was hidden.
fn verdict(page: &mut Page<'_>, accepted: bool, cost: f64, radius: f64)
    ensures { Puts (Table.verdict accepted cost radius) page.old page.new }
{
    number(page, word(accepted, float::is_nan(cost)), radius);
    page.put_line_end();
}

fn word(accepted: bool, hidden: bool) -> &'static [u8]
    ensures { result.now ≡ Table.padded 10 (Table.word accepted hidden) }
{
    match (accepted, hidden) {
        (true, _) => b"accepted  ",
        (false, true) => b"hidden    ",
        (false, false) => b"rejected  ",
    }
}

// The number of a trial, to the right of five places, and two blanks.
fn numbered(page: &mut Page<'_>, row: u64)
    ensures { Puts (Table.numbered row) page.old page.new }
{
    page.put_text(margin(row));
    page.put_whole(row);
    page.put_text(b"  ");
}

#[tactic(auto, unfolding(crate::specs::Table::margin))]
fn margin(row: u64) -> &'static [u8]
    ensures { result.now ≡ Table.blanks (Table.margin row) }
{
    match row {
        ..10 => b"    ",
        10..100 => b"   ",
        100..1000 => b"  ",
        1000..10000 => b" ",
        _ => b"",
    }
}

// A number with blanks behind it, 24 places wide: no number takes more.
fn column(page: &mut Page<'_>, x: f64)
    ensures { Puts (Table.column x ∷ []) page.old page.new }
{
    let mut text = [b' '; 24];
    decimal::write(x, &mut text);
    page.put_text(&text);
}

// A number behind a text.
fn number(page: &mut Page<'_>, text: &[u8], x: f64)
    ensures { Puts (Table.told text.now x) page.old page.new }
{
    page.put_text(text);
    let mut digits = [0; 24];
    let n = decimal::write(x, &mut digits);
    page.put_text(&digits[..n]);
}

fn refused(page: &mut Page<'_>, text: &[u8], r: Refusal)
    ensures { Puts (Table.refused text.now r) page.old page.new }
{
    page.put_text(text);
    page.put_whole(r.number());
    page.put_text(b"): ");
    page.put_text(reason(r));
}

// Document 01's reasons, and those of later requests, in words.
fn reason(r: Refusal) -> &'static [u8]
    ensures { result.now ≡ Table.reason r }
{
    match r {
        Refusal::Size => b"n or a length is wrong\n",
        Refusal::Setting => {
            b"a setting, or the radius, the cost or the count of the session, is out of range\n"
        }
        Refusal::Turn => b"it is out of turn\n",
        Refusal::Entry => b"a number that came with it is not finite\n",
        Refusal::Radius => b"the radius is zero\n",
        Refusal::Pivot => b"the Hessian has no inverse, a pivot is zero or nearly\n",
        Refusal::Root => b"no root leads to the edge of the region\n",
        Refusal::Range => b"a number of the result would not be finite\n",
        Refusal::Hidden => {
            b"as many trials as are allowed in a row were hidden: show the markers, then set the count to 0\n"
        }
    }
}

fn end(page: &mut Page<'_>, state: State)
    ensures { Puts (Table.end state) page.old page.new }
{
    kept(page, b"\nEnd at cost ", state.cost, state.radius);
    page.put_text(waiting(state.phase));
}

fn waiting(phase: Phase) -> &'static [u8]
    ensures { result.now ≡ Table.waiting phase }
{
    match phase {
        Phase::Ready => b", ready for a proposal.\n",
        Phase::AwaitingCost(_, _) => b", a cost is awaited.\n",
        Phase::AwaitingDerivatives => b", derivatives are awaited.\n",
    }
}

// The point, a number on each line.
fn numbers(page: &mut Page<'_>, point: &[f64])
    ensures { Puts (Table.points point.now) page.old page.new }
{
    page.put_text(b"Point:\n");
    for x in point {
        number(page, b"       ", *x);
        page.put_line_end();
    }
}
