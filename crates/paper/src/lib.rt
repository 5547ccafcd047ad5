// MQOM2-L1-gf16-fast-r3 as document 001 has it: definitions in specs/, theorems about them in proofs/. No code.
#![tactic(auto)]
