// Lines, packed equations, batching, packing and folding over K (document 001, 2.1.2, 2.1.3, 2.5.1, 2.5.2): definitions in specs/,
// theorems in proofs/. No code.
#![tactic(auto)]
