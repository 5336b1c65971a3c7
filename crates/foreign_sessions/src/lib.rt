// The sessions as C and Rust may drive them: a session is three lists that its owner keeps. Words and numbers are the same for both kinds,
// and each call changes them in place; the third list, the kind's own settings, is only read.
// Words: 10, which is how many there are; kernel, limit, allowance, dogleg, and the edition of SR1's rule, which TrustRegion passes over;
// the phase (0 ready, 1 awaiting a cost, 2 awaiting derivatives), the count of hidden trials in a row; what the last call said (0 started,
// 1 proposed, 2 accepted, 3 rejected, 4 taken, 5 done); the passes of a proposal. Lists of another layout have another first word: the first
// ones, of five words, had the kernel there, the next 8 and 9.
// Numbers: epsilon; radius and cost; while a cost is awaited the promise (a model value, or SR1's predicted fall) and the step norm; the
// ratio of a verdict. What a call does not tell is 0.
// A refusal is its number, and leaves every list as it was; 0 says that there is none. Nothing here passes through one_nan: what is read
// from outside has the bits that the sessions gave it.
#![tactic(auto)]

mod listed;
pub mod sr1_session;
pub mod trust_region;

ghost use Rattle.std.specs.Prelude.{◌≡◌};
ghost use Rattle.foreign_sessions.specs.Lists as Lists;
ghost use Rattle.foreign_sessions.specs.Lists.{told, written, kept, starts};

use codec::{Turn, Wholes};
use listed::Listed;
use offer::session::{After, Session};
use offer::state;
use offer::state::{Phase, Said, State};

// ---- from lists

// Words of another layout, or a number that is no phase's, make no session: the kernel reads as 0, which refusal 2 meets at its place.
fn wholes_in(phase_known: bool, words: &[u64; 10]) -> Wholes
    ensures { result ≡ Lists.wholes_in phase_known words.now }
{
    let [layout, kernel, limit, allowance, dogleg, edition, ..] = *words;
    let known = layout == 10 && phase_known;
    Wholes {
        kernel: if known { kernel } else { 0 },
        limit,
        allowance,
        dogleg,
        edition,
    }
}

fn state_in(phase: u64, count: u64, numbers: &[f64; 6]) -> State
    ensures { result ≡ Lists.state_in phase count numbers.now }
{
    let [_, radius, cost, promise, norm, _] = *numbers;
    let turn = Turn {
        number: phase,
        promise,
        norm,
    };
    let begun = state::begin(radius, cost);
    state::moved(begun, radius, cost, Phase::from(turn), count)
}

fn session_at<S: Listed<N>, const N: usize>(
    phase: u64,
    words: &[u64; 10],
    numbers: &[f64; 6],
    own: &[f64; N],
) -> Session<S>
    ensures { result ≡ Lists.session_at S.settings_of S.LAST_PHASE phase words.now numbers.now own.now }
{
    let whole = wholes_in(phase <= S::LAST_PHASE, words);
    Session {
        settings: S::settings_of(whole, numbers[0], own),
        state: state_in(phase, words[7], numbers),
    }
}

// The session that the lists stand for.
pub(crate) fn session_in<S: Listed<N>, const N: usize>(
    words: &[u64; 10],
    numbers: &[f64; 6],
    own: &[f64; N],
) -> Session<S>
    ensures { result ≡ Lists.session_in S.settings_of S.LAST_PHASE words.now numbers.now own.now }
{
    session_at(words[6], words, numbers, own)
}

// ---- into lists

// The first six words and epsilon stay: no call changes a setting. Where a call is taken epsilon is finite, so no NaN is copied.
fn write(
    state: State,
    said: u64,
    passes: u64,
    ratio: f64,
    words: &mut [u64; 10],
    numbers: &mut [f64; 6],
) -> u64
    ensures { told result words.new numbers.new ≡ written words.old numbers.old state said passes ratio }
{
    let turn = Turn::from(state.phase);
    *words = [
        words[0],
        words[1],
        words[2],
        words[3],
        words[4],
        words[5],
        turn.number,
        state.count,
        said,
        passes,
    ];
    *numbers = [
        numbers[0],
        state.radius,
        state.cost,
        turn.promise,
        turn.norm,
        ratio,
    ];
    0
}

// A refusal writes nothing: the lists keep their bits.
pub(crate) fn keep<S: Copy>(after: After<S>, words: &mut [u64; 10], numbers: &mut [f64; 6]) -> u64
    ensures { told result words.new numbers.new ≡ kept words.old numbers.old after.session.state after.outcome }
{
    let state = after.session.state;
    match after.outcome {
        Err(r) => r.number(),
        Ok(Said::Proposed(passes)) => write(state, 1, passes, 0.0, words, numbers),
        Ok(Said::Accepted(ratio)) => write(state, 2, 0, ratio, words, numbers),
        Ok(Said::Rejected(ratio)) => write(state, 3, 0, ratio, words, numbers),
        Ok(Said::Taken) => write(state, 4, 0, 0.0, words, numbers),
        Ok(Said::Done) => write(state, 5, 0, 0.0, words, numbers),
    }
}

// ---- a start, of either kind

// Settings and cost are read; what else the lists held is not looked at.
pub(crate) fn start<S: Listed<N>, const N: usize>(
    words: &mut [u64; 10],
    numbers: &mut [f64; 6],
    own: &[f64; N],
) -> u64
    ensures { told result words.new numbers.new ≡ starts S.kind S.settings_of S.LAST_PHASE words.old numbers.old own.now }
{
    let given: Session<S> = session_at(0, words, numbers, own);
    match Session::start(given.settings, numbers[2]) {
        Ok(s) => write(s.state, 0, 0, 0.0, words, numbers),
        Err(r) => r.number(),
    }
}
