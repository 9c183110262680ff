// An hour in numbers: the state that a caller keeps in a lent slice of numbers, and what calls on it read, write and answer. No code.
#![tactic(auto)]

use rules_curve::{Curve, Refusal};
use rules_interval::Interval;
use rules_path::Market;

// Cells of the standing, and as many of the quarter hour: a count, then a cut mark and a floor price of each resource.
pub const COUNTED_ROOM: usize = 1 + Interval::MAX_RESOURCES + Interval::MAX_RESOURCES;

// Where the quarter hour, the market and the rows begin; the standing begins at 0.
pub const QUARTER_FROM: usize = COUNTED_ROOM;

pub const MARKET_FROM: usize = QUARTER_FROM + COUNTED_ROOM;

pub const ROWS_FROM: usize = MARKET_FROM + 1 + Interval::MAX_RESOURCES + Market::MAX_PORTFOLIOS;

// Cells of a curve and of a row.
pub const CURVE_ROOM: usize = 2 + 2 * Curve::MAX_STEPS;

pub const ROW_ROOM: usize = 2 * CURVE_ROOM;

// Cells of an hour.
pub const STATE_ROOM: usize = ROWS_FROM + Interval::MAX_RESOURCES * ROW_ROOM;

// Numbers of one resource of an opening.
pub const BLOCK_ROOM: usize = 80;

// Numbers of a verdict, and of the verdicts of an interval.
pub const VERDICT_WIDTH: usize = 4 + Market::MAX_PORTFOLIOS;

pub const VERDICT_ROOM: usize = Interval::MAX_CONSTRAINTS * VERDICT_WIDTH;

// Numbers of why a resource is cut or not, and of all resources.
pub const CAUSE_WIDTH: usize = 4;

pub const CAUSE_ROOM: usize = Interval::MAX_RESOURCES * CAUSE_WIDTH;

// Why a call on lent cells leaves everything lent as it was: a refusal, or fewer cells than the hour has.
#[derive(Clone, Copy, Debug, PartialEq, Eq)]
pub enum CallError {
    Refused(Refusal),
    TooShort,
}
