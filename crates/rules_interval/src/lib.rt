// An interval as it is read, and its limits (paper 01, Interval and hour: Limits; Refused, by place: 13 to 16). No code.
#![tactic(auto)]

// An interval as it is read: counts may be more than the room. The factor of resource r on constraint c stands at r * 32 + c.
#[derive(Clone, Copy)]
pub struct Interval {
    pub constraints: usize,
    pub shadow: [i64; Interval::MAX_CONSTRAINTS],
    pub resources: usize,
    pub lmp: [i64; Interval::MAX_RESOURCES],
    pub dispatch: [i64; Interval::MAX_RESOURCES],
    pub available: [i64; Interval::MAX_RESOURCES],
    pub floor: [i64; Interval::MAX_RESOURCES],
    pub factors: [i64; Interval::MAX_FACTORS],
    pub parameter: i64,
}

impl Interval {
    pub const MAX_CONSTRAINTS: usize = 32;

    pub const MAX_RESOURCES: usize = 64;

    pub const MAX_FACTORS: usize = 2048;

    pub const MAX_SHADOW: i64 = 100_000_000;

    pub const MAX_LMP: i64 = 100_000_000;

    pub const MAX_PARAMETER: i64 = 100;

    pub const MAX_FACTOR: i64 = 1_000_000;
}
