// The order of the numbers and what every operation called least has in common, as theorems: proofs/Order, proofs/Least, proofs/Ratio, proofs/Shortens.
// There is no code here.
#![tactic(auto)]
