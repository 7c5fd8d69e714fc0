// Proofs alone: what stores in a row to a record of a module lent by `&mut` leave, and what its type says of each record.
#![tactic(auto)]
