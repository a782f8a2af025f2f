// Running a trace in parts is running it at once: laws, no code.
#![tactic(auto)]
