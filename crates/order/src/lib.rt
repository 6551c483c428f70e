// The order of the refusals: what is proved of the single step beside its contract. There is no code here: see specs/ and proofs/.
#![tactic(auto)]
