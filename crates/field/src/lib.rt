// The fields of 2^m elements, m = 4, 5, 6: definitions in specs/, laws in proofs/, no code.
#![tactic(auto)]
