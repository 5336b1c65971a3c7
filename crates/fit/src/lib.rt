// The fit station in a file: a script has the words of a session's start and of its calls, and what each
// comes to is written in their order.
#![tactic(auto)]

mod reading;

ghost use Rattle.std.specs.Prelude.{◌≡◌, ◌*◌, ◌≤◌, length, take, IfSome};
ghost use Rattle.stream.specs.Pieces.{Puts};
ghost use Rattle.station.specs.Lists.{Same};
ghost use Rattle.station.specs.Lists.{held as Lists·held};
ghost use Rattle.station.specs.Happening.{Performed};
ghost use Rattle.station.specs.Happening as Happening;
ghost use Rattle.fit.specs.Meaning as Meaning;
ghost use Rattle.fit.specs.Meaning.{comes_to, Turned, SamePage, Kept, Ended};

use event::Event;
use reading::{Held, Part};
pub use reading::{Reading, Script};
use script::{Place, call, start};
use station::{After, Answers, Lists, Proposal, Session};
use stream::{Over, Page};
use vectors::refusal::Refusal;

// How what happened is written: as lines of words, or as a table for people.
#[derive(Clone, Copy, Debug, PartialEq, Eq)]
pub enum Manner {
    Lines,
    Table,
}

// What stays the same from a script's start to its end: how it is written, the session's n, and whether its end tells a count.
#[derive(Clone, Copy)]
struct Form {
    manner: Manner,
    n: usize,
    tells_more: bool,
}

// Where the calls of a script stand: so many trials were answered; they go on until the last event of all.
#[derive(Clone, Copy)]
struct Standing {
    session: Session,
    trials: u64,
    running: bool,
}

// Runs a script to its end. What follows words that are bad, or a start that is refused, is read past.
pub fn run(manner: Manner, script: &mut Reading<'_>, page: &mut Page<'_>)
    ensures { Ended script.old page.old script.new page.new }
{
    let mut words = [0; 4239];
    let start = script.read(&mut words, Part::Start);
    opened(manner, script, page, &mut words, start.count);
    script.skip();
}

// The lists of the session, and those that come with answers, each at its own length.
fn opened(
    manner: Manner,
    script: &mut Reading<'_>,
    page: &mut Page<'_>,
    words: &mut [u64],
    count: usize,
)
    requires { (count ≤ length words.old) × (length words.old ≡ 4239) }
    ensures { Kept script.old page.old script.new page.new }
{
    let Some(n) = size(&words[..count]) else {
        page.put_text(b"bad input\n");
        return;
    };
    let square = n * n;
    let mut point = [0.0; 64];
    let mut gradient = [0.0; 64];
    let mut hessian = [0.0; 4096];
    let mut step = [0.0; 64];
    let mut trial = [0.0; 64];
    let mut scratch = [0.0; 8704];
    let mut new_gradient = [0.0; 64];
    let mut new_hessian = [0.0; 4096];
    let place = Place {
        point: &mut point[..n],
        gradient: &mut gradient[..n],
        hessian: &mut hessian[..square],
    };
    let proposal = Proposal {
        step: &mut step[..n],
        trial: &mut trial[..n],
    };
    let mut lists = Lists {
        place,
        proposal,
        scratch: &mut scratch[..2 * square + 8 * n],
    };
    let form = Form {
        manner,
        n,
        tells_more: start::tells_more(&words[..count]),
    };
    let begun = station::begin(start::decode(&words[..count], &mut lists.place));
    if let Some(session) = begin(form, page, begun, &lists) {
        calls(
            form,
            script,
            page,
            words,
            session,
            &mut lists,
            &mut new_gradient[..n],
            &mut new_hessian[..square],
        );
    }
}

// The n of a start, which is small where the start is whole.
fn size(words: &[u64]) -> Option<usize>
    ensures { IfSome result (λ n. (n ≤ 64) × (n * n ≤ 4096)) }
{
    if start::wanted(words) != words.len() {
        return None;
    }
    Some(start::size(words))
}

// What a start came to is written, and a session that it began goes on.
fn begin(
    form: Form,
    page: &mut Page<'_>,
    begun: Option<Result<Session, Refusal>>,
    lists: &Lists<'_>,
) -> Option<Session>
    ensures { SamePage page.old page.new }
{
    let event = match begun {
        Some(Ok(session)) => Event::Started(session.state()),
        Some(Err(r)) => Event::NotStarted(r),
        None => Event::Bad,
    };
    written(form, page, 0, event, lists);
    begun?.ok()
}

fn calls(
    form: Form,
    script: &mut Reading<'_>,
    page: &mut Page<'_>,
    words: &mut [u64],
    session: Session,
    lists: &mut Lists<'_>,
    new_gradient: &mut [f64],
    new_hessian: &mut [f64],
)
    requires { (length words.old ≡ 4239) × (length new_gradient.old ≡ form.n) × (length new_hessian.old ≡ form.n * form.n) }
    ensures { Kept script.old page.old script.new page.new }
{
    let mut at = Standing {
        session,
        trials: 0,
        running: true,
    };
    while at.running {
        at = turn(
            form,
            script,
            page,
            words,
            at,
            lists,
            new_gradient,
            new_hessian,
        );
    }
}

// The next call is read, made and written; or the end.
fn turn(
    form: Form,
    script: &mut Reading<'_>,
    page: &mut Page<'_>,
    words: &mut [u64],
    at: Standing,
    lists: &mut Lists<'_>,
    new_gradient: &mut [f64],
    new_hessian: &mut [f64],
) -> Standing
    requires { (length words.old ≡ 4239) × (length new_gradient.old ≡ form.n) × (length new_hessian.old ≡ form.n * form.n) }
    ensures same { Same lists.old lists.new }
    ensures turned { Turned form at script.old page.old (Lists·held lists.old) result script.new page.new (Lists·held lists.new) }
{
    let held = script.read(words, Part::Call(at.session.kind(), form.n));
    let after = next(
        at.session,
        words,
        form.n,
        held,
        lists,
        new_gradient,
        new_hessian,
    );
    written(form, page, at.trials, after.event, lists);
    Standing {
        session: after.session,
        trials: trials(at.trials, after.event),
        running: !after.event.is_last(),
    }
}

// What the words of a call come to, or that there are none.
fn next(
    session: Session,
    words: &[u64],
    n: usize,
    held: Held,
    lists: &mut Lists<'_>,
    new_gradient: &mut [f64],
    new_hessian: &mut [f64],
) -> After
    requires { (held.count ≤ length words.now) × (length new_gradient.old ≡ n) × (length new_hessian.old ≡ n * n) }
    ensures same { Same lists.old lists.new }
    ensures performed { Performed (comes_to n (Happening.at session (Lists·held lists.old)) (take held.count words.now) held.ending) result (Lists·held lists.new) }
{
    if held.is_end() {
        return After {
            session,
            event: Event::Ended(session.state()),
        };
    }
    let told = call::decode(
        session.kind(),
        n,
        &words[..held.count],
        new_gradient,
        new_hessian,
    );
    let answers = Answers {
        gradient: new_gradient,
        hessian: new_hessian,
    };
    session.perform(told, answers, lists)
}

// How many trials were answered, where so many were before the call.
fn trials(before: u64, event: Event) -> u64
    ensures { result ≡ Meaning.trials_after before event }
{
    match event {
        Event::Judged { .. } => before.wrapping_add(1),
        _ => before,
    }
}

fn written(form: Form, page: &mut Page<'_>, trials: u64, event: Event, lists: &Lists<'_>)
    ensures { Puts (Meaning.written form.manner trials event form.tells_more (Lists·held lists.now)) page.old page.new }
{
    let place = &lists.place;
    match form.manner {
        Manner::Lines => report::lines::put(
            page,
            event,
            form.tells_more,
            place.point,
            place.gradient,
            place.hessian,
            lists.proposal.step,
            lists.proposal.trial,
        ),
        Manner::Table => report::table::put(page, trials, event, place.point),
    }
}
