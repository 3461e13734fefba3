// The guarantees of both kinds of scheduler, and the one premise of their calls, all in specs/: there is no code here.
#![tactic(auto)]
