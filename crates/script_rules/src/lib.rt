// The printout of a script, defined for every input, and its laws: there is no code here.
#![tactic(auto)]
