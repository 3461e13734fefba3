// What holds of a scheduler written out and read back: there is no code here.
#![tactic(auto)]
