// No code: the claims over whole lists of events, demand 3 and the sums. The book, the ledger and the claims stand in specs/, their proofs in proofs/.
#![tactic(auto)]
