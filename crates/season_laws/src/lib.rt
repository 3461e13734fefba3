// What holds of every season: theorems about the definitions of `season_rules`.
#![tactic(auto)]
