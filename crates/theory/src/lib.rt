// The theorems about the definitions of `model`. There is no code here: see proofs/.
#![tactic(auto)]
