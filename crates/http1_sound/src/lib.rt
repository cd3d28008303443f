// Laws of the definitions that read HTTP/1.1: definitions and laws, no code.

#![tactic(auto)]
