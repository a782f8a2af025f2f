// The laws of text in a buffer: no code.
#![tactic(auto)]
