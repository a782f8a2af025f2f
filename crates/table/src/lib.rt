// Document 01's table of worked examples, P1 to P12, as theorems over the definitions that the contracts cite: no code.
#![tactic(auto)]
