// The mitigated curve of a bid (paper 01, Interval and hour; 31.2.3, 34.1.5). No code.
#![tactic(auto)]

use rules_curve::Step;

// A bid after its cuts.
#[derive(Clone, Copy)]
pub struct Mitigated {
    pub start: u64,
    pub count: usize,
    pub steps: [Step; Mitigated::MAX_STEPS],
}

impl Mitigated {
    pub const MAX_STEPS: usize = 20;
}
