// The checks of an interval (paper 01, Interval and hour: Limits; Refused, by place). The contracts cite the definitions of rules_interval.
#![tactic(auto)]

ghost use Rattle.std.specs.Prelude.{◌≡◌, true, ◌&&◌, ◌+◌, ◌/◌, ◌≤◌, pos, neg_ℤ, length, drop, is_some, IfSome};
ghost use Rattle.rules_number.specs.Order.{in_range};
ghost use Rattle.rules_number.specs.Over.{all_to};
ghost use Rattle.rules_curve.specs.Refusals.{outcome_number};
ghost use Rattle.rules_interval.specs.Intervals.{cell, all_within, factors_good, output_good, outputs_good, interval_refusal};
ghost use Rattle.rules_state.specs.Intervals.{outputs_in};
ghost use Rattle.interval.specs.Over.{lent_interval, output_at};

use rules_curve::{Curve, Refusal};
use rules_interval::Interval;

// An interval in lent slices: `outputs` has locational price, dispatch, available and floor of each resource in turn, `factors` the factor of resource r on constraint
// c at 32 r + c. A number past the end of a slice is 0.
#[derive(Clone, Copy)]
pub struct LentInterval<'a> {
    pub constraints: usize,
    pub shadow: &'a [i64],
    pub resources: usize,
    pub outputs: &'a [i64],
    pub factors: &'a [i64],
    pub parameter: i64,
}

// The outputs of a resource in an interval.
#[derive(Clone, Copy)]
pub struct Output {
    pub lmp: i64,
    pub dispatch: i64,
    pub available: i64,
    pub floor: i64,
}

// The outputs of resource r, of which not all four lie in the slice.
fn output_past(s: &[i64], r: usize) -> Output
    requires { length s.now / 4 ≤ r }
    ensures { result ≡ output_at s.now r }
{
    if s.len() / 4 < r {
        return Output {
            lmp: 0,
            dispatch: 0,
            available: 0,
            floor: 0,
        };
    }
    let left = &s[4 * r..];
    let lmp = cells::cell_at(left, 0);
    let dispatch = cells::cell_at(left, 1);
    let available = cells::cell_at(left, 2);
    let floor = cells::cell_at(left, 3);
    Output {
        lmp,
        dispatch,
        available,
        floor,
    }
}

// The outputs of resource r of a slice that holds the four of each in turn. A number past the end is 0.
pub fn output_at(s: &[i64], r: usize) -> Output
    ensures { result ≡ output_at s.now r }
{
    if s.len() / 4 <= r {
        return output_past(s, r);
    }
    let at = 4 * r;
    let lmp = s[at];
    let dispatch = s[at + 1];
    let available = s[at + 2];
    let floor = s[at + 3];
    Output {
        lmp,
        dispatch,
        available,
        floor,
    }
}

// Whether four numbers from an index on lie between lo and hi: four at once, for speed.
fn four_within(numbers: &[i64], i: usize, lo: i64, hi: i64) -> bool
    requires { i + 4 ≤ length numbers.now }
    ensures { result ≡ all_to (λ k. in_range lo hi (cell numbers.now (i + k))) 4 }
{
    if !number::within(numbers[i], lo, hi) {
        return false;
    }
    if !number::within(numbers[i + 1], lo, hi) {
        return false;
    }
    if !number::within(numbers[i + 2], lo, hi) {
        return false;
    }
    number::within(numbers[i + 3], lo, hi)
}

// Whether the first n numbers lie between lo and hi, where those before an index do.
fn rest_within(numbers: &[i64], from: usize, n: usize, lo: i64, hi: i64) -> bool
    requires { (from ≤ n) × ((n ≤ length numbers.now) × (all_within lo hi numbers.now from ≡ true)) }
    ensures { result ≡ all_within lo hi numbers.now n }
{
    for i in from..n {
        if !number::within(numbers[i], lo, hi) {
            return false;
        }
    }
    true
}

// Whether the first n numbers lie between lo and hi.
fn all_within(numbers: &[i64], n: usize, lo: i64, hi: i64) -> bool
    requires { n ≤ length numbers.now }
    ensures { result ≡ all_within lo hi numbers.now n }
{
    // By index: at a stride of four.
    let mut i: usize = 0;
    while 4 <= n - i {
        if !four_within(numbers, i, lo, hi) {
            return false;
        }
        i += 4;
    }
    rest_within(numbers, i, n, lo, hi)
}

// Whether the factors from a cell on are in range on m constraints. A factor past the end is 0.
fn row_good(factors: &[i64], at: usize, m: usize) -> bool
    ensures { result ≡ all_within (neg_ℤ (pos 1000000)) (pos 1000000) (drop at factors.now) m }
{
    if factors.len() <= at {
        return true;
    }
    let left = &factors[at..];
    let held = left.len().min(m);
    all_within(left, held, -Interval::MAX_FACTOR, Interval::MAX_FACTOR)
}

// The same of n resources.
fn factors_good(factors: &[i64], n: usize, m: usize) -> bool
    requires { n ≤ 64 }
    ensures { result ≡ factors_good factors.now n m }
{
    for r in 0..n {
        if !row_good(factors, r * Interval::MAX_CONSTRAINTS, m) {
            return false;
        }
    }
    true
}

// Whether a resource can be dispatched so: available in range, floor and dispatch not above it.
fn output_good(available: i64, floor: i64, dispatch: i64) -> bool
    ensures { result ≡ output_good available floor dispatch }
{
    if !number::within(available, 0, Curve::MAX_QUANTITY) {
        return false;
    }
    if !number::within(floor, 0, available) {
        return false;
    }
    number::within(dispatch, 0, available)
}

// Whether the first n resources can be dispatched so, judged in one pass; none where a locational price is out of range.
fn outputs_judged(outputs: &[i64], n: usize) -> Option<bool>
    requires { n ≤ 64 }
    ensures prices { is_some result ≡ all_within (neg_ℤ (pos 100000000)) (pos 100000000) (outputs_in outputs.now 0) n }
    ensures outputs { IfSome result (λ good. good ≡ outputs_good (outputs_in outputs.now 2) (outputs_in outputs.now 3) (outputs_in outputs.now 1) n) }
{
    let mut good = true;
    for r in 0..n {
        let output = output_at(outputs, r);
        if !number::within(output.lmp, -Interval::MAX_LMP, Interval::MAX_LMP) {
            return None;
        }
        if !output_good(output.available, output.floor, output.dispatch) {
            good = false;
        }
    }
    Some(good)
}

// Whether the shadow prices of m constraints are in range. A price past the end is 0.
fn shadow_good(shadow: &[i64], m: usize) -> bool
    ensures { result ≡ all_within (pos 0) (pos 100000000) shadow.now m }
{
    let held = shadow.len().min(m);
    all_within(shadow, held, 0, Interval::MAX_SHADOW)
}

// Whether shadow prices, parameter and factors are in range.
fn ranges_good(asked: &LentInterval) -> bool
    requires { asked.now.resources ≤ 64 }
    ensures { result ≡ (all_within (pos 0) (pos 100000000) asked.now.shadow.now asked.now.constraints && (in_range (pos 0) (pos 100) asked.now.parameter && factors_good asked.now.factors.now asked.now.resources asked.now.constraints)) }
{
    if !shadow_good(asked.shadow, asked.constraints) {
        return false;
    }
    if !number::within(asked.parameter, 0, Interval::MAX_PARAMETER) {
        return false;
    }
    factors_good(asked.factors, asked.resources, asked.constraints)
}

// The lowest of 13 to 16 that applies to an interval of these values in an hour of `known` resources, or none.
pub fn checked(known: usize, asked: &LentInterval) -> Result<(), Refusal>
    ensures { outcome_number result ≡ interval_refusal known (lent_interval asked.now) }
{
    if asked.resources != known {
        return Err(Refusal::ResourceCount);
    }
    if Interval::MAX_RESOURCES < asked.resources {
        return Err(Refusal::ResourceCount);
    }
    if Interval::MAX_CONSTRAINTS < asked.constraints {
        return Err(Refusal::ConstraintCount);
    }
    let Some(outputs_good) = outputs_judged(asked.outputs, asked.resources) else {
        return Err(Refusal::IntervalRange);
    };
    if !ranges_good(asked) {
        return Err(Refusal::IntervalRange);
    }
    if !outputs_good {
        return Err(Refusal::Output);
    }
    Ok(())
}
