// What follows from demand 2 of writing Binary HTTP anew: definitions and laws, no code.

#![tactic(auto)]
