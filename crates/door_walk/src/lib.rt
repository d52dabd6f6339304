// By which laws a function that is lent structs is followed, statement by statement. Proofs alone: there is no code in it.
#![tactic(auto)]
