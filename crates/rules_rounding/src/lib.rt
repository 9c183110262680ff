// How far rounding raises a default price that is worked out from costs (paper 02, 2.14). No code.
#![tactic(auto)]
