// Laws of lists of jobs, and what holds of every model that calls hand back, of either kind: there is no code here.
#![tactic(auto)]
