// What a packet without passes is, what it changes in the packets behind it, and the state behind the next one with passes, with no code.
#![tactic(auto)]
