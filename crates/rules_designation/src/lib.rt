// The tally of a constraint over sixty trading days, and its default verdict (paper 02, 2.10; 39.7.3.1, 39.7.3.2). No code.
#![tactic(auto)]

// A trading day of one constraint: bit h of a mask stands for hour h, counted from 0.
#[derive(Clone, Copy)]
pub struct Day {
    pub number: u32,
    pub bound: u32,
    pub noncompetitive: u32,
}

// The last sixty accepted days of one constraint: how many they are, the number of the last one, and their masks, the newest day first. Past the days held the masks are 0.
#[derive(Clone, Copy)]
pub struct Tally {
    pub days: u32,
    pub last: u32,
    pub bound: [u32; Tally::DAYS],
    pub noncompetitive: [u32; Tally::DAYS],
}

impl Day {
    pub const HOURS: usize = 24;

    // Every hour marked.
    pub const ALL_HOURS: u32 = 0xff_ffff;
}

impl Tally {
    pub const DAYS: usize = 60;

    pub const LEAST_BOUND: u32 = 10;
}

// A tally in numbers that the caller keeps: how many days are held, the last day's number, and from here on the masks of each kind; and how many numbers that is.
pub const BOUND_FROM: usize = 2;

pub const NONCOMPETITIVE_FROM: usize = BOUND_FROM + Tally::DAYS;

pub const TALLY_ROOM: usize = NONCOMPETITIVE_FROM + Tally::DAYS;
