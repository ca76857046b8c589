// Lists of numbers: definitions in specs/ and laws in proofs/ that several rooms cite, no code.
#![tactic(auto)]
