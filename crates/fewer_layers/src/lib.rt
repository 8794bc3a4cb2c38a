// Below a count of layers, the definitions with that count and with a larger one agree, with no code.
#![tactic(auto)]
