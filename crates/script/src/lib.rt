// What the words of a script say: a session's start, and then its calls. How many words a start or a call has follows from the first of them
// and, of a call, from the session's kind and n; whoever has so many has all of it.
#![tactic(auto)]

pub mod call;
mod places;
pub mod start;

// What a session is; its calls have their words by it.
#[derive(Clone, Copy, Debug, PartialEq, Eq)]
pub enum Kind {
    TrustRegion,
    Sr1,
}

// Where a fit stands: a point, and the gradient and the Hessian there.
#[derive(Drop)]
pub struct Place<'a> {
    pub point: &'a mut [f64],
    pub gradient: &'a mut [f64],
    pub hessian: &'a mut [f64],
}
