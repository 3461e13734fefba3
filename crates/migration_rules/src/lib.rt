// From EASY to conservative backfilling while jobs run (document 02, No. 12), all in specs/: there is no code here.
#![tactic(auto)]
