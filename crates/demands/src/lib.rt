// Demands 2 and 3 of the task about the definitions of turning and taking off: definitions and laws, no code.

#![tactic(auto)]
