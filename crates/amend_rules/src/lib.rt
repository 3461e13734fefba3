// Corrected orders (document 02, No. 13), all in specs/: there is no code here.
#![tactic(auto)]
