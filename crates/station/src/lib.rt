// A session of either kind, driven by the calls of a script: what each comes to, in one set of events.
#![tactic(auto)]

mod lists;

ghost use Rattle.std.specs.Prelude.{◌≡◌, [], Some};
ghost use Rattle.float.specs.Constants.{nought};
ghost use Rattle.script.specs.Place.{SamePlace};
ghost use Rattle.script.specs.declared.call.Call.TheVariants as calls;
ghost use Rattle.station.specs.Station as Definition;
ghost use Rattle.station.specs.Station.{told, came, Performs};
ghost use Rattle.station.specs.Lists.{lent, held, Same, SameProposal};

use event::Event;
pub use lists::{Answers, Lists, Proposal};
use offer::state;
use offer::state::{Said, State};
use script::call::Call;
use script::start::Start;
use script::{Kind, Place};
use sr1::sr1_trustregion;
use trustregion::trustregion_method;
use vectors::refusal::Refusal;

#[derive(Clone, Copy)]
pub enum Session {
    TrustRegion(trustregion::session::Session),
    Sr1(sr1::session::Session),
}

// A session after a call, and what the call came to.
#[derive(Clone, Copy)]
pub struct After {
    pub session: Session,
    pub event: Event,
}

// What a start comes to; none where no words make one.
pub fn begin(start: Option<Start>) -> Option<Result<Session, Refusal>>
    ensures { result ≡ Definition.begin start }
{
    let begun = match start? {
        Start::TrustRegion(settings, cost) => {
            trustregion_method::start(settings, cost).map(Session::TrustRegion)
        }
        Start::Sr1(settings, cost) => sr1_trustregion::start(settings, cost).map(Session::Sr1),
    };
    Some(begun)
}

impl Session {
    pub fn kind(self) -> Kind
        ensures { result ≡ Definition.kind_of self }
    {
        match self {
            Session::TrustRegion(_) => Kind::TrustRegion,
            Session::Sr1(_) => Kind::Sr1,
        }
    }

    pub fn state(self) -> State
        ensures { result ≡ Definition.state_of self }
    {
        match self {
            Session::TrustRegion(s) => s.state,
            Session::Sr1(s) => s.state,
        }
    }

    // Another state, as a caller that holds the session can put it there.
    fn put(&mut self, state: State)
        ensures { self.new ≡ Definition.turned self.old state }
    {
        match self {
            Session::TrustRegion(s) => s.state = state,
            Session::Sr1(s) => s.state = state,
        }
    }

    // What a call said of a trial with this cost, with the radius afterwards.
    fn told(self, outcome: Result<Said, Refusal>, cost: f64) -> Event
        ensures { record { session = self; event = result } ≡ told self outcome cost }
    {
        Event::said(outcome, cost, self.state().radius)
    }

    fn propose(
        &mut self,
        n: usize,
        place: &Place<'_>,
        proposal: &mut Proposal<'_>,
        scratch: &mut [f64],
    ) -> Result<Said, Refusal>
        ensures same { SameProposal proposal.old proposal.new }
        ensures performs { Performs self.old (Some (calls.Propose n)) [] [] (lent place.now proposal.old scratch.old)
            (told self.new result nought) (lent place.now proposal.new scratch.new) }
    {
        match self {
            Session::TrustRegion(s) => trustregion::in_place::propose(
                s,
                n,
                place.point,
                place.gradient,
                place.hessian,
                proposal.step,
                proposal.trial,
                scratch,
            ),
            Session::Sr1(s) => sr1::in_place::propose(
                s,
                n,
                place.point,
                place.gradient,
                place.hessian,
                proposal.step,
                proposal.trial,
                scratch,
            ),
        }
    }

    // An SR1TrustRegion session is told the gradient with the cost.
    fn answer(
        &mut self,
        n: usize,
        cost: f64,
        new_gradient: &[f64],
        place: &mut Place<'_>,
        proposal: &Proposal<'_>,
        scratch: &mut [f64],
    ) -> Result<Said, Refusal>
        ensures same { SamePlace place.old place.new }
        ensures performs { Performs self.old (Some (calls.Cost n cost)) new_gradient.now [] (lent place.old proposal.now scratch.old)
            (told self.new result cost) (lent place.new proposal.now scratch.new) }
    {
        match self {
            Session::TrustRegion(s) => {
                trustregion::in_place::answer_cost(s, n, cost, place.point, proposal.trial)
            }
            Session::Sr1(s) => sr1::in_place::answer(
                s,
                n,
                cost,
                new_gradient,
                place.point,
                proposal.step,
                proposal.trial,
                place.gradient,
                place.hessian,
                scratch,
            ),
        }
    }

    // None where no derivatives are awaited: an SR1TrustRegion session never does.
    fn renew(
        &mut self,
        n: usize,
        answers: Answers<'_>,
        place: &mut Place<'_>,
        proposal: &Proposal<'_>,
        scratch: &[f64],
    ) -> Option<Result<Said, Refusal>>
        ensures same { SamePlace place.old place.new }
        ensures performs { Performs self.old (Some (calls.Derivatives n)) answers.entry.gradient.now answers.entry.hessian.now (lent place.old proposal.now scratch.now)
            (came self.new result nought) (lent place.new proposal.now scratch.now) }
    {
        match self {
            Session::TrustRegion(s) => Some(trustregion::in_place::answer_derivatives(
                s,
                n,
                answers.gradient,
                answers.hessian,
                place.gradient,
                place.hessian,
            )),
            Session::Sr1(_) => None,
        }
    }

    // What a call comes to.
    fn respond(
        &mut self,
        call: Option<Call>,
        answers: Answers<'_>,
        place: &mut Place<'_>,
        proposal: &mut Proposal<'_>,
        scratch: &mut [f64],
    ) -> Event
        ensures same_place { SamePlace place.old place.new }
        ensures same_proposal { SameProposal proposal.old proposal.new }
        ensures performs { Performs self.old call answers.entry.gradient.now answers.entry.hessian.now (lent place.old proposal.old scratch.old)
            (record { session = self.new; event = result }) (lent place.new proposal.new scratch.new) }
    {
        let Some(call) = call else {
            return Event::Bad;
        };
        match call {
            Call::Propose(n) => {
                let outcome = self.propose(n, place, proposal, scratch);
                self.told(outcome, 0.0)
            }
            Call::Cost(n, cost) => {
                let outcome = self.answer(n, cost, answers.gradient, place, proposal, scratch);
                self.told(outcome, cost)
            }
            Call::Derivatives(n) => match self.renew(n, answers, place, proposal, scratch) {
                Some(outcome) => self.told(outcome, 0.0),
                None => Event::Bad,
            },
            Call::Change(radius, cost, phase) => {
                let was = self.state();
                self.put(state::moved(was, radius, cost, phase, was.count));
                Event::Changed
            }
            Call::Count(count) => {
                let was = self.state();
                self.put(state::moved(was, was.radius, was.cost, was.phase, count));
                Event::Changed
            }
        }
    }

    // A call on a session and the lists that it is lent; those that come with an answer stand beside it. Words that make no call change
    // nothing.
    pub fn perform(
        mut self,
        call: Option<Call>,
        answers: Answers<'_>,
        lists: &mut Lists<'_>,
    ) -> After
        ensures same { Same lists.old lists.new }
        ensures performs { Performs self call answers.entry.gradient.now answers.entry.hessian.now (held lists.old) result (held lists.new) }
    {
        let event = self.respond(
            call,
            answers,
            &mut lists.place,
            &mut lists.proposal,
            lists.scratch,
        );
        After {
            session: self,
            event,
        }
    }
}
