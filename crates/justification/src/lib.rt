// Why the method is right: the five invariants and the levels, the steps of any eligible vertex and the reset that keep them, the measure that falls in each step. No code.
#![tactic(auto)]
