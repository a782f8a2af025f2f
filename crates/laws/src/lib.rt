// One event on the chip keeps what Rattle's types say of a state, leaves a well-formed state well formed, and leaves every endpoint that it is not for
// as it was: laws, no code.
#![tactic(auto)]
