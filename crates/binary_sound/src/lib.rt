// What holds of every message that is accepted from Binary HTTP: definitions and laws, no code.

#![tactic(auto)]
