// Hard decisions, reliabilities, the order of positions, the soft distance, candidates: definitions in specs/, laws in proofs/, no code.
#![tactic(auto)]
