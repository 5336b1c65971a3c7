// An SR1TrustRegion session.
ghost use Rattle.std.specs.Prelude.{◌≡◌};
ghost use Rattle.sr1.specs.Session as Definition;

use crate::settings::Settings;
use offer::session;

pub type Session = session::Session<Settings>;

// What a call by value returns.
pub type After = session::After<Settings>;

// What refusal 2 asks of a session at every call.
#[tactic(auto, unfolding(crate::specs::Session::sound))]
pub fn sound(s: Session) -> bool
    ensures { result ≡ Definition.sound s }
{
    s.is_sound()
}
