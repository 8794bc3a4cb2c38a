// An accepted read leaves its reader's state in range and as long, with no code.
#![tactic(auto)]
