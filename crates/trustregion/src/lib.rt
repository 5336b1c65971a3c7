// argmin's TrustRegion: a session that proposes a step, is answered a cost, and keeps a radius.
#![tactic(auto)]

pub mod in_place;
pub mod session;
pub mod settings;
pub mod trustregion_method;
