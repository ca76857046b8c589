// A file is what its tables and its rule say: laws, in proofs/. No code.
#![tactic(auto)]
