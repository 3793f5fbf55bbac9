// The search over all patterns, and that it finds the nearest candidate and counts all: definitions in specs/, laws in proofs/, no code.
#![tactic(auto)]
