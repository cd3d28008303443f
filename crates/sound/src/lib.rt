// What holds of every message that is accepted, in either form: definitions and laws, no code.

#![tactic(auto)]
