// The shortest decimal digits that read back as an f64, in exact whole numbers.
#![tactic(auto)]

mod digits;
mod whole;

pub use digits::{Found, digits_of};
