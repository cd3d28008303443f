// The round trip of HTTP/1.1: definitions and laws, no code.

#![tactic(auto)]
