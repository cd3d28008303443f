// laws alone: the C entries under the demands

#![tactic(auto)]
