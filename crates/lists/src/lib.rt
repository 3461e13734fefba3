// Definitions and laws of lists, tests and searches, all in specs/: there is no code here.
#![tactic(auto)]
