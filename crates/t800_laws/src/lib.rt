// Laws about the definitions of `t800`, which the proofs of the code and the round trip cite, and what reads and writes leave in the state
// (docs/PROOFS.md). No code.
#![tactic(auto)]
