// Every bid of the drills, in the order of the request (paper 02, 2.12). The contracts cite the definitions of rules_classroom.
#![tactic(auto)]

ghost use Rattle.std.specs.Prelude.{◌≡◌};
ghost use Rattle.rules_classroom.specs.Classroom.{classroom_bids, classroom_bid};
ghost use Rattle.classroom.specs.Places.{step_at_place, bid_by};

use rules_classroom::Classroom;
use rules_curve::{Curve, RawCurve, RawStep};

// Ends and prices stand in digits, one for each of three steps: an end is 100 times its digit, and a price 10000 times; a step of digits 0
// and 0 is blank. The ends of two steps, and the prices of two and of three, smaller first.
const ENDS_OF_TWO: [usize; 3] = [120, 130, 230];

const PRICES_OF_TWO: [usize; 6] = [0, 10, 20, 110, 120, 220];

const PRICES_OF_THREE: [usize; 10] = [0, 1, 2, 11, 12, 22, 111, 112, 122, 222];

// The step of the last digit of each.
fn step_by(ends: usize, prices: usize) -> RawStep
    ensures { result ≡ step_at_place ends prices }
{
    RawStep {
        end: (ends % 10 * 100) as i64,
        price: (prices % 10 * 10_000) as i64,
    }
}

// The bid of so many steps: blank past them where the digits there are 0.
fn bid_by(count: usize, ends: usize, prices: usize) -> RawCurve
    ensures { result ≡ bid_by count ends prices }
{
    let mut steps = [RawStep { end: 0, price: 0 }; Curve::MAX_STEPS];
    steps[0] = step_by(ends / 100, prices / 100);
    steps[1] = step_by(ends / 10, prices / 10);
    steps[2] = step_by(ends, prices);
    RawCurve {
        start: 0,
        count,
        steps,
    }
}

// Bid k of the list, from 0 on; past the last the curve with no step. Of one step there are three for each end, of two six for each two
// ends, and of three ten.
pub fn bid(k: usize) -> RawCurve
    ensures { result ≡ classroom_bid k }
{
    if k < 9 {
        return bid_by(1, (k / 3 + 1) * 100, k % 3 * 100);
    }
    if k < 27 {
        let j = k - 9;
        return bid_by(2, ENDS_OF_TWO[j / 6], PRICES_OF_TWO[j % 6]);
    }
    if k < Classroom::BIDS {
        return bid_by(3, 123, PRICES_OF_THREE[k - 27]);
    }
    bid_by(0, 0, 0)
}

// All of them, in order.
pub fn bids() -> [RawCurve; Classroom::BIDS]
    ensures { result ≡ classroom_bids }
{
    let mut list = [bid(0); Classroom::BIDS];
    for (k, place) in list.iter_mut().enumerate() {
        *place = bid(k);
    }
    list
}
