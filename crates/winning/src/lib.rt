// What it is to win a vertex and to answer a game rightly: definitions in specs/, theorems in proofs/, no code.
#![tactic(auto)]
