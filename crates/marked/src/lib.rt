// Document 01's marked cases: specs/Cases.antt has the table, proofs/Marked.antt the claim.

#![tactic(auto)]
