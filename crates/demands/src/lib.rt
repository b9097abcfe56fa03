// The front page: the demands as theorems about the public calls, in proofs/, and no code.
#![tactic(auto)]
