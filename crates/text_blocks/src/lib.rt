// The numbers that the tables of a text put into blocks of 80, a block for each resource, and the opening that such blocks stand for. No code.
#![tactic(auto)]
