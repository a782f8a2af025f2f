// Every public function has one outcome for each input: the theorems stand in proofs/.
// No code.
#![tactic(auto)]
