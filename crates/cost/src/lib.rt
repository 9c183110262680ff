// The default curve from costs (paper 01, Default curve from costs; 39.7.1.1.1.1). The contracts cite the definitions of rules_cost.
#![tactic(auto)]

ghost use Rattle.std.specs.Prelude.{true, ◌&&◌, cond, List, ◌≡◌, ℕ, suc, ◌-◌, ◌*◌, ◌/◌, ◌≤◌, ◌<◌, leb, ltb, eqb, ℤ, pos, length};
ghost use Rattle.std.specs.Result.{result_unwrap_or};
ghost use Rattle.std.specs.Int.Signed.{lt_z};
ghost use Rattle.rules_number.specs.Order.{nat_of};
ghost use Rattle.rules_number.specs.Ceil.{ceil_div};
ghost use Rattle.rules_curve.specs.Refusals.{outcome_number, unless};
ghost use Rattle.rules_curve.specs.Curves.{unless_refused, blank_curve};
ghost use Rattle.rules_library.specs.Slices.{points_in, costs_in};
ghost use Rattle.rules_state.specs.States.{curve_cells, curve_in_cells};
ghost use Rattle.rules_state.specs.Takes.{if_accepted};
ghost use Rattle.cost.specs.Cells.{ends_of, charge_count, charges_of, point_of, splits_at};
ghost use Rattle.rules_cost.specs.Costs.{most_points, first_to, mw_in_range, heat_in_range, rate_in_range, incremental_rate, with_adder, cost_curve, points_good, mw_good, heat_good, charges_in_range, prices_in_range, rates_good, cost_refusal};

use rules_cost::{Costs, Point};
use rules_curve::{Curve, Refusal, Step};

// The charges: gas, rate, allowance, om, msc, soc and fee.
const CHARGES: usize = 7;

// Where a default curve starts and ends.
#[derive(Clone, Copy)]
pub struct Ends {
    pub start: u64,
    pub end: u64,
}

// R, the incremental heat rate from a point to the next, (mw, heat), after the 80% limit on a step that ends at `end`.
fn incremental_rate(from_mw: i64, from_heat: i64, mw: i64, heat: i64, end: i64, pmax: i64) -> i64
    requires quantities { (mw_in_range from_mw ≡ true) × ((mw_in_range mw ≡ true) × ((mw_in_range end ≡ true) × (mw_in_range pmax ≡ true))) }
    requires heats { (heat_in_range from_heat ≡ true) × (heat_in_range heat ≡ true) }
    ensures { result ≡ incremental_rate pmax end (point_of from_mw from_heat) (point_of mw heat) }
{
    let n = heat * mw - from_heat * from_mw;
    let r = number::ceil_by(n, mw - from_mw);
    if 5 * end <= 4 * pmax {
        number::min(r, number::max(from_heat, heat))
    } else {
        r
    }
}

// The 80% mark k: 4 × PMax / 5, rounded down.
fn mark_of(pmax: i64) -> i64
    requires { mw_in_range pmax ≡ true }
    ensures { result ≡ pos (4 * nat_of pmax / 5) }
{
    (4 * number::whole(pmax) / 5) as i64
}

// Whether k lies strictly inside a segment.
fn lies_inside(from: i64, k: i64, to: i64) -> bool
    ensures { result ≡ (lt_z from k && lt_z k to) }
{
    from < k && k < to
}

// The number of the segment, of n, that the mark k splits, or n where it splits none.
fn split_at(n: usize, points: &[i64], k: i64) -> usize
    requires { (n < most_points) × (2 * most_points ≤ length points.now) }
    ensures { result ≡ first_to (splits_at points.now k) n }
{
    for i in 0..n {
        if lies_inside(points[2 * i], k, points[2 * i + 2]) {
            return i;
        }
    }
    n
}

// How many steps so many segments make, of which the one with number `split` is two.
fn steps_of(split: usize, segments: usize) -> usize
    requires { segments ≤ most_points }
    ensures { result ≡ cond (ltb split segments) (suc segments) segments }
{
    if split < segments {
        segments + 1
    } else {
        segments
    }
}

// The segment of step t.
fn segment_of(split: usize, t: usize) -> usize
    ensures { result ≡ cond (leb t split) t (t - 1) }
{
    if t <= split { t } else { t - 1 }
}

// Where step t ends: the lower part of the split segment at k, any other step where its segment does.
fn end_of(split: usize, t: usize, k: i64, to: i64) -> i64
    ensures { result ≡ cond (eqb t split) k to }
{
    if t == split { k } else { to }
}

// Whether each quantity is in range and above the one before it: the first is above -1, and the last is the largest.
fn quantities_good(n: usize, points: &[i64]) -> bool
    requires { (n ≤ most_points) × (2 * most_points ≤ length points.now) }
    ensures { (charges : List ℤ) → result ≡ mw_good (costs_in n points.now charges) }
{
    let mut before: i64 = -1;
    for i in 0..n {
        let m = points[2 * i];
        if m <= before {
            return false;
        }
        before = m;
    }
    before <= Curve::MAX_QUANTITY
}

// Whether each average heat rate is in range.
fn heats_good(n: usize, points: &[i64]) -> bool
    requires { (n ≤ most_points) × (2 * most_points ≤ length points.now) }
    ensures { (charges : List ℤ) → result ≡ heat_good (costs_in n points.now charges) }
{
    for i in 0..n {
        if !number::within(points[2 * i + 1], Point::MIN_HEAT, Point::MAX_HEAT) {
            return false;
        }
    }
    true
}

// Whether the four charges are in range.
fn charges_good(charges: &[i64]) -> bool
    requires { charge_count ≤ length charges.now }
    ensures { (n : ℕ) (points : List ℤ) → result ≡ charges_in_range (costs_in n points charges.now) }
{
    if !number::within(charges[3], 0, Costs::MAX_CHARGE) {
        return false;
    }
    if !number::within(charges[4], 0, Costs::MAX_CHARGE) {
        return false;
    }
    if !number::within(charges[5], 0, Costs::MAX_CHARGE) {
        return false;
    }
    number::within(charges[6], 0, Costs::MAX_CHARGE)
}

// Whether gas price, emission rate, allowance price and charges are in range.
fn prices_good(charges: &[i64]) -> bool
    requires { charge_count ≤ length charges.now }
    ensures { (n : ℕ) (points : List ℤ) → result ≡ prices_in_range (costs_in n points charges.now) }
{
    if !number::within(charges[0], 0, Costs::MAX_GAS) {
        return false;
    }
    if !number::within(charges[1], 0, Costs::MAX_RATE) {
        return false;
    }
    if !number::within(charges[2], 0, Costs::MAX_ALLOWANCE) {
        return false;
    }
    charges_good(charges)
}

// n / w, up.
fn ceil_of(n: u64, w: u64) -> u64
    requires { (n ≤ 1000000000000000000) × ((0 < w) × (w ≤ 1000000000)) }
    ensures { pos result ≡ ceil_div (pos n) w }
{
    (n + (w - 1)) / w
}

// The price of a step from the largest rate so far, its own rate and its width. Fuel and greenhouse may lie below zero: they are lifted above it, and the price is
// put down again.
fn step_price(charges: &[i64], largest: i64, rate: i64, width: i64) -> i64
    requires room { charge_count ≤ length charges.now }
    requires prices { (n : ℕ) (points : List ℤ) → prices_in_range (costs_in n points charges.now) ≡ true }
    requires rates { (rate_in_range largest ≡ true) × (rate_in_range rate ≡ true) }
    requires width { (0 < nat_of width) × (nat_of width ≤ 2000000) }
    ensures { (n : ℕ) (points : List ℤ) → result ≡ with_adder (costs_in n points charges.now) largest rate (nat_of width) }
{
    let fuel = ceil_of((largest * charges[0] + 100_000_000_000) as u64, 1000);
    let greenhouse = ceil_of(
        (rate * charges[1] * charges[2] + 200_000_000_000_000_000) as u64,
        1_000_000_000,
    );
    let fee_part = ceil_of((100 * charges[6]) as u64, width as u64);
    let fixed = (charges[3] + charges[4] + charges[5]) as u64;
    let lifted = ceil_of(11 * (fuel + greenhouse + fixed + fee_part), 10);
    lifted as i64 - 330_000_000
}

// Puts the default curve of costs that pass 4 to 7, or answers refusal 8. M and the price start at the lowest that they can be.
fn stepped(
    n: usize,
    points: &[i64],
    charges: &[i64],
    cells: &mut [i64; rules_state::CURVE_ROOM],
) -> Result<Ends, Refusal>
    requires room { (2 * most_points ≤ length points.now) × (charge_count ≤ length charges.now) }
    requires points { points_good (costs_in n points.now charges.now) ≡ true }
    requires quantities { mw_good (costs_in n points.now charges.now) ≡ true }
    requires heats { heat_good (costs_in n points.now charges.now) ≡ true }
    requires prices { prices_in_range (costs_in n points.now charges.now) ≡ true }
    ensures number { outcome_number result ≡ unless (rates_good (costs_in n points.now charges.now)) 8 }
    ensures ends { result_unwrap_or result (ends_of blank_curve) ≡ ends_of (unless_refused (unless (rates_good (costs_in n points.now charges.now)) 8) (cost_curve (costs_in n points.now charges.now))) }
    ensures cells { cells.new ≡ if_accepted (unless (rates_good (costs_in n points.now charges.now)) 8) (curve_cells (cost_curve (costs_in n points.now charges.now))) cells.old }
{
    let segments = n - 1;
    let top = points[2 * segments];
    let k = mark_of(top);
    let split = split_at(segments, points, k);
    let count = steps_of(split, segments);
    let first = points[0];
    let mut edge = first;
    let mut curve = [0i64; rules_state::CURVE_ROOM];
    curve[0] = count as i64;
    curve[1] = edge;
    let mut largest = -Costs::MAX_INCREMENTAL;
    let mut price = Curve::LOWEST_DEFAULT;
    for t in 0..count {
        let i = segment_of(split, t);
        let end = end_of(split, t, k, points[2 * i + 2]);
        let rate = incremental_rate(
            points[2 * i],
            points[2 * i + 1],
            points[2 * i + 2],
            points[2 * i + 3],
            end,
            top,
        );
        if !number::within(rate, -Costs::MAX_INCREMENTAL, Costs::MAX_INCREMENTAL) {
            return Err(Refusal::IncrementalRate);
        }
        largest = number::max(largest, rate);
        price = number::max(price, step_price(charges, largest, rate, end - edge));
        curve[2 + t] = end;
        curve[2 + Curve::MAX_STEPS + t] = price;
        edge = end;
    }
    *cells = curve;
    Ok(Ends {
        start: number::whole(first),
        end: number::whole(edge),
    })
}

// The same of eleven points and seven charges, which lie in the slices.
fn from_whole(
    n: usize,
    points: &[i64],
    charges: &[i64],
    cells: &mut [i64; rules_state::CURVE_ROOM],
) -> Result<Ends, Refusal>
    requires { (2 * most_points ≤ length points.now) × (charge_count ≤ length charges.now) }
    ensures number { outcome_number result ≡ cost_refusal (costs_in n points.now charges.now) }
    ensures ends { result_unwrap_or result (ends_of blank_curve) ≡ ends_of (unless_refused (cost_refusal (costs_in n points.now charges.now)) (cost_curve (costs_in n points.now charges.now))) }
    ensures cells { cells.new ≡ if_accepted (cost_refusal (costs_in n points.now charges.now)) (curve_cells (cost_curve (costs_in n points.now charges.now))) cells.old }
{
    if n < Costs::MIN_POINTS {
        return Err(Refusal::PointCount);
    }
    if Costs::MAX_POINTS < n {
        return Err(Refusal::PointCount);
    }
    if !quantities_good(n, points) {
        return Err(Refusal::Quantity);
    }
    if !heats_good(n, points) {
        return Err(Refusal::HeatRate);
    }
    if !prices_good(charges) {
        return Err(Refusal::CostRange);
    }
    stepped(n, points, charges, cells)
}

// The same of slices that may be short: the numbers are copied first.
fn from_short(
    n: usize,
    points: &[i64],
    charges: &[i64],
    cells: &mut [i64; rules_state::CURVE_ROOM],
) -> Result<Ends, Refusal>
    ensures number { outcome_number result ≡ cost_refusal (costs_in n points.now charges.now) }
    ensures ends { result_unwrap_or result (ends_of blank_curve) ≡ ends_of (unless_refused (cost_refusal (costs_in n points.now charges.now)) (cost_curve (costs_in n points.now charges.now))) }
    ensures cells { cells.new ≡ if_accepted (cost_refusal (costs_in n points.now charges.now)) (curve_cells (cost_curve (costs_in n points.now charges.now))) cells.old }
{
    let mut whole = [0i64; 2 * Costs::MAX_POINTS];
    cell_copies::fill(&mut whole, points, 0);
    let mut seven = [0i64; CHARGES];
    cell_copies::fill(&mut seven, charges, 0);
    from_whole(n, &whole, &seven, cells)
}

// Puts the default curve in cells, or answers the lowest of refusals 4 to 8 that applies and leaves the cells as they were, from n points (quantity and heat rate
// of each in turn) and from gas, rate, allowance, om, msc, soc and fee.
pub fn default_cells(
    n: usize,
    points: &[i64],
    charges: &[i64],
    cells: &mut [i64; rules_state::CURVE_ROOM],
) -> Result<Ends, Refusal>
    ensures number { outcome_number result ≡ cost_refusal (costs_in n points.now charges.now) }
    ensures ends { result_unwrap_or result (ends_of blank_curve) ≡ ends_of (unless_refused (cost_refusal (costs_in n points.now charges.now)) (cost_curve (costs_in n points.now charges.now))) }
    ensures cells { cells.new ≡ if_accepted (cost_refusal (costs_in n points.now charges.now)) (curve_cells (cost_curve (costs_in n points.now charges.now))) cells.old }
{
    if points.len() < 2 * Costs::MAX_POINTS {
        return from_short(n, points, charges, cells);
    }
    if charges.len() < CHARGES {
        return from_short(n, points, charges, cells);
    }
    from_whole(n, points, charges, cells)
}

// Quantity and heat rate of each point in turn.
fn numbers_of(points: [Point; Costs::MAX_POINTS]) -> [i64; 2 * Costs::MAX_POINTS]
    ensures { points_in result ≡ points }
{
    let mut numbers = [0i64; 2 * Costs::MAX_POINTS];
    for (i, point) in points.iter().enumerate() {
        numbers[2 * i] = point.mw;
        numbers[2 * i + 1] = point.heat;
    }
    numbers
}

// Gas, rate, allowance, om, msc, soc and fee.
fn charges_of(costs: Costs) -> [i64; CHARGES]
    ensures { result ≡ charges_of costs }
{
    [
        costs.gas,
        costs.rate,
        costs.allowance,
        costs.om,
        costs.msc,
        costs.soc,
        costs.fee,
    ]
}

// The curve of its cells.
fn curve_in(s: &[i64]) -> Curve
    ensures { result ≡ curve_in_cells s.now 0 }
{
    let mut steps = [Step { end: 0, price: 0 }; Curve::MAX_STEPS];
    for (i, step) in steps.iter_mut().enumerate() {
        *step = Step {
            end: cells::whole_at(s, 2 + i),
            price: cells::cell_at(s, 2 + Curve::MAX_STEPS + i),
        };
    }
    Curve {
        start: cells::whole_at(s, 1),
        count: cells::whole_at(s, 0) as usize,
        steps,
    }
}

// The default curve, or the lowest of refusals 4 to 8 that applies.
pub fn default_curve(costs: Costs) -> Result<Curve, Refusal>
    ensures number { outcome_number result ≡ cost_refusal costs }
    ensures curve { result_unwrap_or result blank_curve ≡ unless_refused (cost_refusal costs) (cost_curve costs) }
{
    let numbers = numbers_of(costs.points);
    let charges = charges_of(costs);
    let mut cells = [0i64; rules_state::CURVE_ROOM];
    default_cells(costs.count, &numbers, &charges, &mut cells)?;
    Ok(curve_in(&cells))
}
