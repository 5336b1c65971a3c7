// The lists that a session's calls are lent, together.
use script::Place;

// What a proposal writes: a step and its trial point.
#[derive(Drop)]
pub struct Proposal<'a> {
    pub step: &'a mut [f64],
    pub trial: &'a mut [f64],
}

// All that a session is lent; a call writes those of them that are its own.
#[derive(Drop)]
pub struct Lists<'a> {
    pub place: Place<'a>,
    pub proposal: Proposal<'a>,
    pub scratch: &'a mut [f64],
}

// The lists that come with an answer.
#[derive(Clone, Copy)]
pub struct Answers<'a> {
    pub gradient: &'a [f64],
    pub hessian: &'a [f64],
}
