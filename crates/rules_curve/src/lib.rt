// Curves as submitted and as checked, and the refusals (paper 01, Curve; Refused, by place). No code.
#![tactic(auto)]

// A step as it is read.
#[derive(Clone, Copy)]
pub struct RawStep {
    pub end: i64,
    pub price: i64,
}

// A curve as it is read: the count may be more than its room.
#[derive(Clone, Copy)]
pub struct RawCurve {
    pub start: i64,
    pub count: usize,
    pub steps: [RawStep; Curve::MAX_STEPS],
}

// A step of a curve: it ends before `end` hundredths of a megawatt.
#[derive(Clone, Copy)]
pub struct Step {
    pub end: u64,
    pub price: i64,
}

// A curve: a submitted bid or a default energy bid.
#[derive(Clone, Copy)]
pub struct Curve {
    pub start: u64,
    pub count: usize,
    pub steps: [Step; Curve::MAX_STEPS],
}

// Why a call is refused, with its number in paper 01's table or in a request of paper 02. None of the engine's has 22.
#[derive(Clone, Copy, Debug, PartialEq, Eq)]
pub enum Refusal {
    StepCount = 1,
    Edge = 2,
    Price = 3,
    PointCount = 4,
    Quantity = 5,
    HeatRate = 6,
    CostRange = 7,
    IncrementalRate = 8,
    Counts = 9,
    Membership = 10,
    OutsideDefault = 11,
    HourFull = 12,
    ResourceCount = 13,
    ConstraintCount = 14,
    IntervalRange = 15,
    Output = 16,
    Form = 17,
    Length = 18,
    PassTurn = 19,
    HourOpen = 20,
    GasBook = 21,
    PartsApart = 23,
    PartsTogether = 24,
    TradingDay = 25,
    NothingBinds = 26,
}

impl Curve {
    // The room of any curve, and the most steps of a default curve.
    pub const MAX_STEPS: usize = 11;

    pub const MAX_BID_STEPS: usize = 10;

    pub const MAX_QUANTITY: i64 = 1_000_000;

    pub const LOWEST_BID: i64 = -1_500_000;

    pub const LOWEST_DEFAULT: i64 = -1_000_000_000;

    pub const HIGHEST_DEFAULT: i64 = 1_000_000_000;
}
