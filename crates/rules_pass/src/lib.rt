// Five-minute passes (paper 02, 2.1; 34.1.5; refusal 19): the quarter hour since the last accepted interval. No code.
#![tactic(auto)]

use rules_hour::Floor;
use rules_interval::Interval;

// The quarter hour since the last accepted interval: how many passes it has accepted, and the lowest floor price of those that cut each resource.
#[derive(Clone, Copy)]
pub struct Quarter {
    pub passes: u64,
    pub floors: [Floor; Interval::MAX_RESOURCES],
}

impl Quarter {
    pub const MAX_PASSES: u64 = 3;
}
