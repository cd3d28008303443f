// Turning messages from one form into the other.

#![tactic(auto)]
