// The definitions of a scheduler written out and read back (document 02, No. 11): there is no code here.
#![tactic(auto)]
