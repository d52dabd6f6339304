// What the door's calls leave of the parts that they are lent, and the loop over them: definitions and laws alone, in specs/ and proofs/.
#![tactic(auto)]
