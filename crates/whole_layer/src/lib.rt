// A layer call against the single calls that it stands for, and the round trip of several precincts, with no code.
#![tactic(auto)]
