// The hour and its intervals (paper 01, Interval and hour; 31.2.3, 34.1.5; Refused, by place: 12), demand 3 and the marked cases. No code.
#![tactic(auto)]

use rules_interval::Interval;

// The lowest floor price of the accepted intervals that cut a resource.
#[derive(Clone, Copy)]
pub struct Floor {
    pub price: Option<i64>,
}

// What intervals change of an hour: how many it has accepted, and the floor price of each resource.
#[derive(Clone, Copy)]
pub struct Standing {
    pub accepted: u64,
    pub floors: [Floor; Interval::MAX_RESOURCES],
}

impl Standing {
    pub const MAX_INTERVALS: u64 = 4;
}
