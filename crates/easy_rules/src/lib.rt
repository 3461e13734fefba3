// EASY backfilling: what each call gives, all in specs/: there is no code here.
#![tactic(auto)]
