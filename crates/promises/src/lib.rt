// The three demands of the customer, about the entries: theorems alone, in proofs/, over the definitions of the crates below.
#![tactic(auto)]
