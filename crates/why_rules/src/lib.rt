// Why a job waits (document 02, No. 14), all in specs/: there is no code here.
#![tactic(auto)]
