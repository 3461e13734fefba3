// EASY backfilling: what holds of the calls as defined, all in specs/: there is no code here.
#![tactic(auto)]
