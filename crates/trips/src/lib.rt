// Both round trips of the policy file, as theorems: this crate has no code.
#![tactic(auto)]
