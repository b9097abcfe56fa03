// Mathematics that knows nothing of TLBs: definitions and laws in specs/ and proofs/, and no code.
#![tactic(auto)]
