// What kinds 5 to 8 keep, accepted or refused: theorems alone, in proofs/, over the definitions of the crates below.
#![tactic(auto)]
