// The lines of a text, and the line that opens a scheduler, which scripts and checkpoints share: there is no code here.
#![tactic(auto)]
