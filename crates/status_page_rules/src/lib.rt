// The status page of a scheduler, all in specs/: there is no code here.
#![tactic(auto)]
