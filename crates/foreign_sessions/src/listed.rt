// What differs between the kinds of session in lists, beside their calls.
ghost use Rattle.std.specs.Prelude.{◌≡◌, ℕ, List, Float};
ghost use Rattle.codec.specs.declared.Wholes as words;

use codec::Wholes;
use offer::session::Kind;

// A kind of session whose own settings are N numbers.
pub(crate) trait Listed<const N: usize>: Kind {
    ghost settings_of: { words.Wholes → Float → List Float → Self };

    // The last phase that it comes to.
    ghost LAST_PHASE: { ℕ };

    const LAST_PHASE: u64;

    fn settings_of(whole: Wholes, epsilon: f64, own: &[f64; N]) -> Self
        ensures { result ≡ settings_of whole epsilon own.now };
}
