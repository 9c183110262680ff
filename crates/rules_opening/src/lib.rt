// A resource and what an hour is opened from (paper 01, Refused, by place: 9, then 10, then each resource in number order: bid, costs or the pack's curve, 11).
// No code.
#![tactic(auto)]

use rules_cost::Costs;
use rules_curve::{Curve, RawCurve};
use rules_interval::Interval;
use rules_path::Market;

// Where a resource's default curve comes from.
#[derive(Clone, Copy)]
pub enum Source {
    Costs,
    Pack,
}

// A resource as opening reads it. Of costs and pack only the one that the source names counts.
#[derive(Clone, Copy)]
pub struct Resource {
    pub portfolio: i64,
    pub bid: RawCurve,
    pub source: Source,
    pub costs: Costs,
    pub pack: RawCurve,
}

// A resource of an hour: its submitted bid and its default curve.
#[derive(Clone, Copy)]
pub struct Row {
    pub bid: Curve,
    pub default: Curve,
}

// What an hour is opened from: counts may be more than the room.
#[derive(Clone, Copy)]
pub struct Opening {
    pub month: i64,
    pub portfolios: usize,
    pub sellers: [i64; Market::MAX_PORTFOLIOS],
    pub resources: usize,
    pub list: [Resource; Interval::MAX_RESOURCES],
}

impl Opening {
    pub const MAX_MONTH: i64 = 1_200;
}
