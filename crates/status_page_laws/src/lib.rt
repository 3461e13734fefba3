// What holds of every status page, all in specs/: there is no code here.
#![tactic(auto)]
