// Figures that document 01 marks for proof. There is no code: specs/Figures.antt states them, proofs/Figures.antt proves them.
#![tactic(auto)]
