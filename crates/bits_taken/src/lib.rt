// The bits that the reading of a header takes, one after another: that they stay in reach of the input, and how many of them lie past its
// end, with no code.
#![tactic(auto)]
