// What a read tells of bits past the input's end, and that without such bits more input changes nothing, with no code.
#![tactic(auto)]
