// What a codeword is, its generators, and which places fix a word: definitions in specs/, laws in proofs/, no code.
#![tactic(auto)]
