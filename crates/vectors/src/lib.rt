// Refusals and sizes, and the arithmetic of document 01 on vectors and matrices, over lent slices.
#![tactic(auto)]

pub mod refusal;
pub mod vector;
