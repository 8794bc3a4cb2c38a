// Laws about a precinct's layout and the ranges of its state: sides, levels, first words, and what refusal 5 lets pass. No code.
#![tactic(auto)]
