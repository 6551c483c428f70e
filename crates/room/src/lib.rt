// How much room the line of an answer needs: what is proved of the single step and the answer line together. There is no code here: see
// specs/ and proofs/; the length of any answer's line is `lines::answer_length`.
#![tactic(auto)]
