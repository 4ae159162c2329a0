// No code: the laws are stated in specs/ and proved in proofs/.
#![tactic(auto)]
