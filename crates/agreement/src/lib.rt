// No code: that the definitions which the code is proved by and document 01's relations say the same, in specs/ and proofs/.
#![tactic(auto)]
