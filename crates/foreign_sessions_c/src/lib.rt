// The archive for C of what `foreign_sessions` has: each function is that of the same name there, with the same promise. The header is
// include/mboyaxin.h.
#![tactic(auto)]

mod sr1_session;
mod trust_region;
