// The theorems of the reader of traces: no code.
#![tactic(auto)]
