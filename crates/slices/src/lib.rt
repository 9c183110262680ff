// Curves, costs and a market's list of gas prices, read from lent slices of numbers. The contracts cite the definitions of rules_library.
#![tactic(auto)]

ghost use Rattle.std.specs.Prelude.{◌≡◌};
ghost use Rattle.rules_library.specs.Gas.{list_by};
ghost use Rattle.rules_library.specs.Slices.{steps_in, raw_bid, points_in, costs_in};

use rules_cost::{Costs, Point};
use rules_curve::{Curve, RawCurve, RawStep};

// Eleven steps, from end and price of each in turn.
fn steps_in(s: &[i64]) -> [RawStep; Curve::MAX_STEPS]
    ensures { result ≡ steps_in s.now }
{
    let mut steps = [RawStep { end: 0, price: 0 }; Curve::MAX_STEPS];
    for (i, step) in steps.iter_mut().enumerate() {
        *step = RawStep {
            end: cells::cell_at(s, 2 * i),
            price: cells::cell_at(s, 2 * i + 1),
        };
    }
    steps
}

// A curve as it is read, from its start, its count and its steps.
pub fn curve_in(start: i64, count: usize, s: &[i64]) -> RawCurve
    ensures { result ≡ raw_bid start count s.now }
{
    RawCurve {
        start,
        count,
        steps: steps_in(s),
    }
}

// Eleven points, from quantity and heat rate of each in turn.
fn points_in(s: &[i64]) -> [Point; Costs::MAX_POINTS]
    ensures { result ≡ points_in s.now }
{
    let mut points = [Point { mw: 0, heat: 0 }; Costs::MAX_POINTS];
    for (i, point) in points.iter_mut().enumerate() {
        *point = Point {
            mw: cells::cell_at(s, 2 * i),
            heat: cells::cell_at(s, 2 * i + 1),
        };
    }
    points
}

// Costs, from their points and from gas, rate, allowance, om, msc, soc and fee.
pub fn costs_in(count: usize, points: &[i64], charges: &[i64]) -> Costs
    ensures { result ≡ costs_in count points.now charges.now }
{
    Costs {
        count,
        points: points_in(points),
        gas: cells::cell_at(charges, 0),
        rate: cells::cell_at(charges, 1),
        allowance: cells::cell_at(charges, 2),
        om: cells::cell_at(charges, 3),
        msc: cells::cell_at(charges, 4),
        soc: cells::cell_at(charges, 5),
        fee: cells::cell_at(charges, 6),
    }
}

// The list of a market's number: 0 is the day-ahead market and 1 real time, and any other has an empty one.
pub fn list_of<'a>(day_ahead: &'a [u32], real_time: &'a [u32], market: u32) -> &'a [u32]
    ensures { result.now ≡ list_by market day_ahead.now real_time.now }
{
    match market {
        0 => day_ahead,
        1 => real_time,
        _ => &[],
    }
}
