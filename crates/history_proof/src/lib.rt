// What a kind owes of each single call, and that the guarantees follow from it, all in specs/: there is no code here.
#![tactic(auto)]
