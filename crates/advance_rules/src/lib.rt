// Minutes that pass at once, all in specs/: there is no code here.
#![tactic(auto)]
