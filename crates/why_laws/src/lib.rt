// What holds of the sentences that say why jobs wait, all in specs/: there is no code here.
#![tactic(auto)]
