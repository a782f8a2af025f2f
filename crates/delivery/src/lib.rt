// Demand 3: chip, driver and host, and the theorems that nothing is lost, repeated or reordered, with the laws below them: no code.
#![tactic(auto)]
