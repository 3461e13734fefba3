// What contracts and proofs over lent lists cite: a list by its places, and what a loop that fills the front of a list has written. There is no
// code here.
#![tactic(auto)]
