// What a session of either kind keeps beside its settings, and what its calls say.
ghost use Rattle.std.specs.Prelude.{◌≡◌, ◌-◌, ◌^◌, min};
ghost use Rattle.offer.specs.State as Definition;
ghost use Rattle.offer.specs.State.{result_of};

use vectors::refusal;
use vectors::refusal::Refusal;

// Awaiting a cost, a session holds what its step was promised on: the model value, or SR1's predicted fall, and the step norm.
// Only a TrustRegion session comes to await derivatives.
#[derive(Clone, Copy, Debug, PartialEq)]
pub enum Phase {
    Ready,
    AwaitingCost(f64, f64),
    AwaitingDerivatives,
}

// What a step was promised on.
#[derive(Clone, Copy, Debug, PartialEq)]
pub struct Promise {
    pub value: f64,
    pub norm: f64,
}

// `count` is how many trials in a row were hidden: answered with a NaN.
#[derive(Clone, Copy, Debug, PartialEq)]
pub struct State {
    pub radius: f64,
    pub cost: f64,
    pub phase: Phase,
    pub count: u64,
}

// What a call says that is not refused: the passes of a proposal, the ratio of a verdict. Only SR1TrustRegion says that it is done,
// only TrustRegion that derivatives were taken.
#[derive(Clone, Copy, Debug, PartialEq)]
pub enum Said {
    Done,
    Proposed(u64),
    Accepted(f64),
    Rejected(f64),
    Taken,
}

// A session begins ready, and nothing was hidden yet.
pub fn begin(radius: f64, cost: f64) -> State
    ensures { result ≡ Definition.begin radius cost }
{
    State {
        radius,
        cost,
        phase: Phase::Ready,
        count: 0,
    }
}

// With another radius and cost, in another phase, with another count.
pub fn moved(state: State, radius: f64, cost: f64, phase: Phase, count: u64) -> State
    ensures { result ≡ Definition.moved state radius cost phase count }
{
    State {
        phase,
        count,
        ..begin(radius, cost)
    }
}

// Only in another phase.
pub fn in_phase(state: State, phase: Phase) -> State
    ensures { result ≡ Definition.in_phase phase state }
{
    State { phase, ..state }
}

// The count after an answer that is taken: a hidden trial is one more, any other ends the row. A count that was put at the end of
// its type stays there; no session takes an answer with more than 1,000.
pub fn counted(cost: f64, count: u64) -> u64
    ensures { result ≡ min (Definition.counted cost count) (2 ^ 64 - 1) }
{
    if float::is_nan(cost) {
        return count.saturating_add(1);
    }
    0
}

// The most hidden trials in a row that a session may be set to take.
pub fn allowable(allowance: u64) -> bool
    ensures { result ≡ Definition.allowable allowance }
{
    1 <= allowance && allowance <= 1000
}

// What refusal 2 asks of a state at every call.
pub fn steady(state: State) -> bool
    ensures { result ≡ Definition.steady state }
{
    refusal::all_hold(&[
        float::finite(state.radius),
        0.0 <= state.radius,
        float::finite(state.cost),
    ])
}

pub fn is_ready(phase: Phase) -> bool
    ensures { result ≡ Definition.is_ready phase }
{
    matches!(phase, Phase::Ready)
}

pub fn awaits_derivatives(phase: Phase) -> bool
    ensures { result ≡ Definition.awaits_derivatives phase }
{
    matches!(phase, Phase::AwaitingDerivatives)
}

// What a session that awaits a cost was promised on; any other is out of turn.
pub fn promised(phase: Phase) -> Result<Promise, Refusal>
    ensures { result ≡ result_of (Definition.promised phase) }
{
    match phase {
        Phase::AwaitingCost(value, norm) => Ok(Promise { value, norm }),
        Phase::Ready | Phase::AwaitingDerivatives => Err(Refusal::Turn),
    }
}

#[cfg(test)]
mod tests {
    use super::*;

    // A hidden trial is one more, up to the last number of the type, where it stays; every other cost, an infinite one too, ends the row.
    #[test]
    fn a_row_is_counted(rt: HostRuntime) {
        let rows = [
            (f64::NAN, 0, 1),
            (f64::NAN, 999, 1000),
            (f64::NAN, u64::MAX - 1, u64::MAX),
            (f64::NAN, u64::MAX, u64::MAX),
            (-0.0, 7, 0),
            (1.5, 0, 0),
            (f64::INFINITY, 1000, 0),
            (-1.0, u64::MAX, 0),
        ];
        for (cost, count, want) in rows {
            assert_eq!(rt; counted(cost, count), want, "after {count} hidden trials");
        }
    }
}
