// The round trip of Binary HTTP: definitions and laws, no code.

#![tactic(auto)]
