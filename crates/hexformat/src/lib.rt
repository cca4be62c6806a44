// No code: what is proved of HEX texts stands in specs/ and, where it rests on what a wrong program changes, in proofs/.
#![tactic(auto)]
