// Statements about headers gathered in front: that reading them tells what reading the stream does, and that the move and the move back
// restore each byte; no code.
#![tactic(auto)]
