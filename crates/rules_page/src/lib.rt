// What an accepted interval prints (paper 01, Text): its three tables. No code.
#![tactic(auto)]
