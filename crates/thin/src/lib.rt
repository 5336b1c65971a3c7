// The proof that every call by `&mut` of a session shares: no code, proofs/ alone. README.md says how it is used.

#![tactic(auto)]
