// Every promise has one result: no code, proofs/ alone.

#![tactic(auto)]
