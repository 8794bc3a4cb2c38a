// Demands 1 and 3 of every interface that meets the definitions of `t800`, and what follows for packets, with no code.
#![tactic(auto)]
