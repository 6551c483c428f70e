// When a timer runs, of any machine whose answers say which timers start and which stop. There is no code here: see specs/ and proofs/.
#![tactic(auto)]
