// The headline theorems, each with its type in full. No code.
#![tactic(auto)]
