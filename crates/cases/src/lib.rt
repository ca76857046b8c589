// P1 to P10 of docs/RULES.md in one table under one statement, and the programs that the promises shut out. No code.
#![tactic(auto)]
