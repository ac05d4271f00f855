// The three demands, and that the surface bound holds: no code, only statements about the definitions (specs/Demands.antt) and their proofs.
#![tactic(auto)]
