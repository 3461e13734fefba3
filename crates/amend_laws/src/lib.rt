// What holds of corrected orders, all in specs/: there is no code here.
#![tactic(auto)]
