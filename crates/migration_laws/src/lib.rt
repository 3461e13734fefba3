// What holds of the change from EASY to conservative backfilling, all in specs/: there is no code here.
#![tactic(auto)]
