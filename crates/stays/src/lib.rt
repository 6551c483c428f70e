// Stay by stay: what is proved of whole runs of the table. There is no code here: see specs/ and proofs/.
#![tactic(auto)]
