// Streams of messages: definitions and laws, no code.

#![tactic(auto)]
