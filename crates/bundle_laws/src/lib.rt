// The theorems on bundles (02, item 1): specs/ states them, proofs/ proves them; no code.

#![tactic(auto)]
