// A codeword that was sent, and the margin by which it is nearest: definitions in specs/, laws in proofs/, no code.
#![tactic(auto)]
