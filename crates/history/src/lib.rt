// Lists of calls, the words of the guarantees by calls and their answers, and the claims, all in specs/: there is no code here.
#![tactic(auto)]
