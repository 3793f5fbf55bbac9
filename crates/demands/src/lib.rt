// What is claimed of the calls: specs/Demands first; specs/ states each claim, proofs/ cites what meets it; no code.
#![tactic(auto)]
