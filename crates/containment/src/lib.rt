#![tactic(auto)]

// No code: the theorems on the words of the specification, in proofs/.
