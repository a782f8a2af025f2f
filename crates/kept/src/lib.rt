// Every operation on an endpoint leaves a well-formed endpoint well formed: laws, no code.
#![tactic(auto)]
