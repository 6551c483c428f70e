// Facts on truth values, numbers and lists that the crates above cite in their proofs. There is no code here, and no word
// of the product: see proofs/.
#![tactic(auto)]
