// What is demanded of the whole, as theorems: proofs/Demands.antt. Definitions and theorems; the code is the crates below.
#![tactic(auto)]
