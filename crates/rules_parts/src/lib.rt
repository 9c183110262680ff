// The two kinds of part of a text (paper 01, Text): what opens an hour, and an interval. No code.
#![tactic(auto)]
