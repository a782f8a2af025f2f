// The laws of the FIFOs as lists, for whatever stands above them: no code.
#![tactic(auto)]
