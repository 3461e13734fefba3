// Pages that are filled with what is played, for any state of play: there is no code here.
#![tactic(auto)]
