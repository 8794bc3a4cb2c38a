// What a packet says that none of refusals 5, 6, 3, 7, 8 and 9 turns away. No code.
#![tactic(auto)]
