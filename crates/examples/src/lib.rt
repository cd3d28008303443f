// The worked examples of document 01: definitions and their proof, no code.

#![tactic(auto)]
