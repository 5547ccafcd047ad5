// Seed trees: definitions and laws only; the code that walks them is over one derivation, and stands where that derivation does.
#![tactic(auto)]
