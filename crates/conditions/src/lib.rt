// Conditions 1 to 3 over the calls of `mqom`: theorems only, in proofs/.
#![tactic(auto)]
