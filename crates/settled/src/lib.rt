// The settled examples of document 01, and its whole example: no code, specs/ states them and proofs/ computes them.
#![tactic(auto)]
