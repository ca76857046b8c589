// Reading what was written, and writing what was read: theorems over the two promises, in proofs/. No code.
#![tactic(auto)]
