// Demands 1 and 3 of the calls and of the exported ones, with layers of several precincts; what their reads tell of bits past the input's
// end, and where the segments of an exported read start, with no code.
#![tactic(auto)]
