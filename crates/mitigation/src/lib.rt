// The mitigated curve of a bid (paper 01, Interval and hour; 31.2.3, 34.1.5). The contracts cite the definitions of rules_mitigation.
#![tactic(auto)]

ghost use Rattle.std.specs.Prelude.{◌≡◌, ◌≤◌, length};
ghost use Rattle.rules_curve.specs.Curves.{steps_of, bid_steps, quote};
ghost use Rattle.rules_mitigation.specs.Mitigation.{lowered as loweredBy};
ghost use Rattle.rules_mitigation.specs.Mitigation.{most_mitigated_steps, used_steps, capped, segments, joined, mitigated_of, mitigated};

use rules_curve::{Curve, Step};
use rules_mitigation::Mitigated;

// The price b, cut to the higher of the default price d and the floor price.
fn cap(floor: Option<i64>, b: i64, d: i64) -> i64
    ensures { result ≡ capped floor b d }
{
    match floor {
        None => b,
        Some(l) => number::min(b, number::max(d, l)),
    }
}

// The lowest floor price after a further cut, or after none.
pub fn lowered(floor: Option<i64>, cut: Option<i64>) -> Option<i64>
    ensures { result ≡ loweredBy floor cut }
{
    match (floor, cut) {
        (_, None) => floor,
        (None, Some(l)) => Some(l),
        (Some(k), Some(l)) => Some(number::min(k, l)),
    }
}

// The bid, divided where a default step ends, each part at its cut price.
fn divided(bid: Curve, default: Curve, floor: Option<i64>) -> Mitigated
    ensures { result ≡ mitigated_of bid.start (segments (capped floor) bid.start (bid_steps bid) (steps_of default)) }
{
    let nb = curve::bid_used(bid);
    let nd = curve::used(default);
    let mut steps = [Step { end: 0, price: 0 }; Mitigated::MAX_STEPS];
    let mut at = bid.start;
    let mut i: usize = 0;
    let mut j: usize = 0;
    let mut n: usize = 0;
    // By two indices: each turn moves on in the bid or in its default curve.
    while i < nb && j < nd {
        let b = bid.steps[i];
        let d = default.steps[j];
        if d.end <= at {
            j += 1;
        } else {
            let price = cap(floor, b.price, d.price);
            if d.end < b.end {
                steps[n] = Step { end: d.end, price };
                at = d.end;
                j += 1;
                n += 1;
            } else {
                steps[n] = Step { end: b.end, price };
                at = b.end;
                i += 1;
                n += 1;
            }
        }
    }
    Mitigated {
        start: bid.start,
        count: n,
        steps,
    }
}

// How many steps count: at most as many as there is room for.
fn used(curve: Mitigated) -> usize
    ensures { (result ≡ length (used_steps curve)) × (result ≤ most_mitigated_steps) }
{
    curve.count.min(Mitigated::MAX_STEPS)
}

// Neighbouring steps with one price are merged.
fn merged(curve: Mitigated) -> Mitigated
    ensures { result ≡ mitigated_of curve.start (joined (used_steps curve)) }
{
    let used = used(curve);
    let mut steps = [Step { end: 0, price: 0 }; Mitigated::MAX_STEPS];
    if used == 0 {
        return Mitigated {
            start: curve.start,
            count: 0,
            steps,
        };
    }
    let mut last = curve.steps[0];
    let mut n: usize = 0;
    for i in 1..used {
        let step = curve.steps[i];
        if last.price != step.price {
            steps[n] = last;
            n += 1;
        }
        last = step;
    }
    steps[n] = last;
    Mitigated {
        start: curve.start,
        count: n + 1,
        steps,
    }
}

// The curve of a bid: each quantity at the smaller of its bid price and the higher of its default price and the floor price, if any.
pub fn mitigated_curve(bid: Curve, default: Curve, floor: Option<i64>) -> Mitigated
    ensures { result ≡ mitigated floor bid default }
{
    merged(divided(bid, default, floor))
}

// The price of a quantity.
pub fn price_at(curve: Mitigated, q: u64) -> Option<i64>
    ensures { result ≡ quote curve.start (used_steps curve) q }
{
    curve::price_among(curve.start, &curve.steps[..used(curve)], q)
}
