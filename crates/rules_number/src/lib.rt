// Order, rounding up, least and greatest on whole numbers (paper 01, Units), and the laws on integers, sums and lists that every crate shares. No code.
#![tactic(auto)]
