// argmin's SR1TrustRegion: a session that proposes a step, is answered a cost and a gradient, keeps a radius
// and updates the Hessian.
#![tactic(auto)]

mod gain;
pub mod in_place;
pub mod session;
pub mod settings;
pub mod sr1_trustregion;
