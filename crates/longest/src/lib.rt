// The laws of a run's lines: no code.
#![tactic(auto)]
