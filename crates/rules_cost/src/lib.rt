// The default curve from costs (paper 01, Default curve from costs; 39.7.1.1.1.1). No code.
#![tactic(auto)]

// A point of the heat curve: quantity and average heat rate.
#[derive(Clone, Copy)]
pub struct Point {
    pub mw: i64,
    pub heat: i64,
}

// A resource's costs as they are read: the count may be more than its room.
#[derive(Clone, Copy)]
pub struct Costs {
    pub count: usize,
    pub points: [Point; Costs::MAX_POINTS],
    pub gas: i64,
    pub rate: i64,
    pub allowance: i64,
    pub om: i64,
    pub msc: i64,
    pub soc: i64,
    pub fee: i64,
}

impl Point {
    pub const MIN_HEAT: i64 = 1;

    pub const MAX_HEAT: i64 = 100_000;
}

impl Costs {
    pub const MIN_POINTS: usize = 2;

    pub const MAX_POINTS: usize = 11;

    pub const MAX_GAS: i64 = 1_000_000;

    pub const MAX_RATE: i64 = 200_000;

    pub const MAX_ALLOWANCE: i64 = 10_000_000;

    pub const MAX_CHARGE: i64 = 1_000_000;

    pub const MAX_INCREMENTAL: i64 = 100_000;
}
