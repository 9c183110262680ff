// One bid for the hour (paper 02, 2.2; 34.1.5.3; refusal 20). No code.
#![tactic(auto)]
