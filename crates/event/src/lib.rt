// What happened, whatever the kind of session and however it is written.
#![tactic(auto)]

ghost use Rattle.std.specs.Prelude.{◌≡◌};
ghost use Rattle.event.specs.Event as Definition;

use offer::state::{Said, State};
use vectors::refusal::Refusal;

// Of a start and of the end, the state that the session is in. Of a trial, whether it was accepted, the cost that it was answered, the ratio,
// and the radius afterwards. After a start that is refused, the end, and words that are bad, nothing follows.
#[derive(Clone, Copy, Debug, PartialEq)]
pub enum Event {
    Started(State),
    NotStarted(Refusal),
    Refused(Refusal),
    Done,
    Proposed(u64),
    Judged {
        accepted: bool,
        cost: f64,
        ratio: f64,
        radius: f64,
    },
    Taken,
    Changed,
    Ended(State),
    Bad,
}

impl Event {
    // What a call said; `cost` is that of the trial, `radius` the one afterwards.
    pub fn said(outcome: Result<Said, Refusal>, cost: f64, radius: f64) -> Self
        ensures { result ≡ Definition.said outcome cost radius }
    {
        let judged = |accepted: bool, ratio: f64| Event::Judged {
            accepted,
            cost,
            ratio,
            radius,
        };
        match outcome {
            Err(r) => Event::Refused(r),
            Ok(Said::Done) => Event::Done,
            Ok(Said::Proposed(passes)) => Event::Proposed(passes),
            Ok(Said::Accepted(ratio)) => judged(true, ratio),
            Ok(Said::Rejected(ratio)) => judged(false, ratio),
            Ok(Said::Taken) => Event::Taken,
        }
    }

    // Whether nothing follows.
    pub fn is_last(self) -> bool
        ensures { result ≡ Definition.is_last self }
    {
        matches!(self, Event::NotStarted(_) | Event::Ended(_) | Event::Bad)
    }
}
