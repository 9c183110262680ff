// What the functions of the static library answer, on numbers and slices. No code.
#![tactic(auto)]
